//! What holds of the texts of audits.

ghost use Rattle.std.specs.Prelude.{◌≡◌, ◌≤◌, ◌-◌, ◌⊎◌, ◌++◌, ℕ, List, Ok, Err, take};
ghost use Rattle.ab_key_text.specs.declared.fault.NodeFault.TheVariants.{BadLine, NoEnd};
ghost use Rattle.ab_audit_text.specs.Spelling.{IsAuditText, audit_lines};
ghost use Rattle.ab_audit_text.specs.Texts.{AuditText as TextValue, audit_in};

/// What is spelled as the text of an audit is read as it.
pub fn spelled_is_read()
    ensures { (t : TextValue) → IsAuditText t → audit_in (audit_lines t) ≡ Ok t }
{}

/// What is read is spelled by the lines, and is in form. So no two texts give the same keys and messages.
pub fn read_is_spelled()
    ensures { (ls : List (List ℕ)) (t : TextValue) → audit_in ls ≡ Ok t → (ls ≡ audit_lines t) × IsAuditText t }
{}

/// A bad line is the first: no text in form begins with the lines up to it, and the lines before it are those of a text, or
/// have no fault but their end.
pub fn fault_is_first()
    ensures bad { (ls more : List (List ℕ)) (n : ℕ) (t : TextValue) → audit_in ls ≡ Err (BadLine n) → IsAuditText t → audit_lines t ≡ take n ls ++ more → ⊥ }
    ensures before { (ls : List (List ℕ)) (n : ℕ) → audit_in ls ≡ Err (BadLine n) → 1 ≤ n
        → (audit_in (take (n - 1) ls) ≡ Err (NoEnd n)) ⊎ ((t : TextValue) × (audit_in (take (n - 1) ls) ≡ Ok t)) }
{}
