//! The parts of a line.

ghost use Rattle.std.specs.Prelude.{◌≡◌, ℕ, List, ◌∷◌, ◌++◌, None, IfSome, IfNone, IsSomeAnd};
ghost use Rattle.std.specs.Option.{option_copied};
ghost use Rattle.ab_text.specs.Cores.{Lacks};
ghost use Rattle.ab_text.specs.Heads.{stripped};

/// What comes after a prefix.
pub fn after<'a>(line: &'a [u8], prefix: &[u8]) -> Option<&'a [u8]>
    ensures found { IfSome result (λ rest. line.now ≡ prefix.now ++ rest.now) }
    ensures none { IfNone result ((rest : List ℕ) → line.now ≡ prefix.now ++ rest → ⊥) }
    ensures rest { option_copied result ≡ stripped prefix.now line.now }
{
    line.strip_prefix(prefix)
}

/// What stands before and after the first such byte.
pub fn split_first(text: &[u8], separator: u8) -> Option<(&[u8], &[u8])>
    ensures found { IfSome result (λ p. text.now ≡ p.0.now ++ separator ∷ p.1.now) }
    ensures only { (a b : List ℕ) → Lacks separator a → text.now ≡ a ++ separator ∷ b
        → IsSomeAnd result (λ p. (p.0.now ≡ a) × (p.1.now ≡ b)) }
    ensures none { Lacks separator text.now → result ≡ None }
{
    for (i, b) in text.iter().enumerate() {
        if *b == separator {
            return Some((&text[..i], &text[i + 1..]));
        }
    }
    None
}
