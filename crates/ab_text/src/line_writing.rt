//! Lines, one behind the other.

ghost use Rattle.std.specs.Prelude.{◌≡◌, ◌++◌, ◌∷◌, [], OnOk};
ghost use Rattle.ab_text.specs.Texts.{text_of};

use ab_num::OutOfMemory;

/// Adds a text.
pub(crate) fn add(out: &mut Vec<u8>, text: &[u8]) -> Result<(), OutOfMemory>
    ensures { OnOk result (out.new.items ≡ out.old.items ++ text.now) }
{
    out.extend_from_slice(text)?;
    Ok(())
}

/// Adds a line.
pub(crate) fn add_line(out: &mut Vec<u8>, line: &[u8]) -> Result<(), OutOfMemory>
    ensures { OnOk result (out.new.items ≡ out.old.items ++ text_of (line.now ∷ [])) }
{
    add(out, line)?;
    add(out, b"\n")
}
