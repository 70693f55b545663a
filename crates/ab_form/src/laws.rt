//! The law of a format, of each part: what is read is spelled so, what is spelled is read whatever
//! follows it, a cut spelling is too short, and what was found at the front stays.

ghost use Rattle.std.specs.Prelude.{◌≡◌, ◌<◌, ◌^◌, ℕ, length};
ghost use Rattle.std.specs.Int.{w8, w16, w32, w64};
ghost use Rattle.ab_form.specs.declared.bad.Bad.{Bad as Defect};
ghost use Rattle.ab_form.specs.Example.{AreEntries, entries_at, spell_entries};
ghost use Rattle.ab_form.specs.Formats.{IsFormat, IsWhole, IsWithin, u8_bytes, u8_text, u16_bytes, u16_text, u32_bytes, u64_bytes};
ghost use Rattle.ab_form.specs.Readers.{bytes_at, ranged_at, text_at, whole};

/// Numbers with bounds, of each width.
pub fn numbers_are_formats()
    ensures u8 { (low high : ℕ) (bad : Defect) → high < 2 ^ 8 → IsFormat (ranged_at w8 low high bad) u8_bytes (IsWithin low high) }
    ensures u16 { (low high : ℕ) (bad : Defect) → high < 2 ^ 16 → IsFormat (ranged_at w16 low high bad) u16_bytes (IsWithin low high) }
    ensures u32 { (low high : ℕ) (bad : Defect) → high < 2 ^ 32 → IsFormat (ranged_at w32 low high bad) u32_bytes (IsWithin low high) }
    ensures u64 { (low high : ℕ) (bad : Defect) → high < 2 ^ 64 → IsFormat (ranged_at w64 low high bad) u64_bytes (IsWithin low high) }
{}

/// Bytes of a known number, and bytes behind their length.
pub fn texts_are_formats()
    ensures bytes { (n : ℕ) → IsFormat (bytes_at n) (λ text. text) (λ text. length text ≡ n) }
    ensures u8 { (low high : ℕ) → high < 2 ^ 8 → IsFormat (text_at w8 low high) u8_text (λ text. IsWithin low high (length text)) }
    ensures u16 { (low high : ℕ) → high < 2 ^ 16 → IsFormat (text_at w16 low high) u16_text (λ text. IsWithin low high (length text)) }
{}

/// A format that is put together, as an example: by itself, and with nothing behind it.
pub fn entries_are_formats()
    ensures front { IsFormat entries_at spell_entries AreEntries }
    ensures whole { IsWhole (whole entries_at) spell_entries AreEntries }
{}
