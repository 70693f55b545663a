//! Bytes as hexadecimal text in lower case.

ghost use Rattle.std.specs.Prelude.{◌≡◌, ◌≤◌, ◌*◌, ◌↔◌, IsTrue, length};
ghost use Rattle.hex.specs.Hex.{encode_lower};
ghost use Rattle.ab_text.specs.HexBytes.{bytes_in};

/// Whether a text is that of these bytes, in lower case.
fn is_spelled(bytes: &[u8], text: &[u8]) -> bool
    requires { length bytes.now ≤ 60 }
    ensures { IsTrue result ↔ (text.now ≡ encode_lower bytes.now) }
{
    let mut digits = [0; 120];
    let spelled = &mut digits[..2 * bytes.len()];
    match hex::encode_to_slice(bytes, &mut *spelled) {
        Ok(()) => &*spelled == text,
        Err(_) => unreachable!(),
    }
}

/// The `N` bytes whose text this is.
#[tactic(auto, unfolding(crate::specs::HexBytes::bytes_in))]
pub fn bytes_in<const N: usize>(text: &[u8]) -> Option<[u8; N]>
    requires { N ≤ 60 }
    ensures { result ≡ bytes_in N text.now }
{
    let mut bytes = [0; N];
    match hex::decode_to_slice(text, &mut bytes) {
        Err(_) => None,
        Ok(()) => {
            if is_spelled(&bytes, text) {
                Some(bytes)
            } else {
                None
            }
        }
    }
}
