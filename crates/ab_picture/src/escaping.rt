//! Bytes as text of an SVG.

ghost use Rattle.std.specs.Prelude.{◌≡◌, ◌++◌, OnOk};
ghost use Rattle.std.specs.Option.{option_map};
ghost use Rattle.ab_picture.specs.Escaping.{entity_of, escaped, escaped_byte, printed};

use ab_num::OutOfMemory;

/// The name of a byte that a text may not hold.
fn entity(byte: u8) -> Option<&'static str>
    ensures { option_map (λ s. s.now) result ≡ entity_of byte }
{
    if byte == b'<' {
        return Some("&lt;");
    }
    if byte == b'>' {
        return Some("&gt;");
    }
    if byte == b'&' {
        return Some("&amp;");
    }
    if byte == b'"' {
        return Some("&quot;");
    }
    None
}

/// A byte that can be printed as it is, and any other as a question mark.
fn printed(byte: u8) -> u8
    ensures { result ≡ printed byte }
{
    if byte >= b' ' && byte <= b'~' {
        byte
    } else {
        b'?'
    }
}

/// Adds a byte as text.
fn add_escaped_byte(out: &mut Vec<u8>, byte: u8) -> Result<(), OutOfMemory>
    ensures { OnOk result (out.new.items ≡ out.old.items ++ escaped_byte byte) }
{
    match entity(byte) {
        Some(name) => out.extend_from_slice(name.as_bytes())?,
        None => out.push(printed(byte))?,
    }
    Ok(())
}

/// Adds bytes as text.
pub(crate) fn add_escaped(out: &mut Vec<u8>, bytes: &[u8]) -> Result<(), OutOfMemory>
    ensures { OnOk result (out.new.items ≡ out.old.items ++ escaped bytes.now) }
{
    for byte in bytes {
        add_escaped_byte(out, *byte)?;
    }
    Ok(())
}
