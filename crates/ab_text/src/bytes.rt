//! Bytes as hexadecimal text in lower case.

ghost use Rattle.std.specs.Prelude.{◌≡◌, ◌<◌, ◌≤◌, ◌↔◌, All, List, ℕ, IfOk, IfSome, IsTrue, Some, length};
ghost use Rattle.hex.specs.Hex.{encode_lower};
ghost use Rattle.ab_text.specs.EventLines.{IsInjected};
ghost use Rattle.ab_text.specs.HexDigits.{IsLowerDigit};

use crate::items::Items;
use ab_num::OutOfMemory;
use hex::FromHexError;
use std::alloc::Global;

/// How many digits the longest text has.
const MOST_DIGITS: usize = 8388608;

/// Whether these are digits in lower case, for at least one byte and at most 4 MiB.
fn are_digits(text: &[u8]) -> bool
    ensures { IsTrue result ↔ ((1 ≤ length text.now) × (length text.now ≤ 8388608) × All IsLowerDigit text.now) }
{
    !text.is_empty()
        && text.len() <= MOST_DIGITS
        && text.iter().all(|b| (*b >= b'0' && *b <= b'9') || (*b >= b'a' && *b <= b'f'))
}

/// The bytes that a text spells.
pub(crate) fn bytes_of(alloc: Global, text: &[u8]) -> Result<Option<Items<u8>>, OutOfMemory>
    ensures found { IfOk result (λ o. IfSome o (λ bytes. IsInjected bytes × (text.now ≡ encode_lower bytes))) }
    ensures only { (bytes : List ℕ) → IsInjected bytes → text.now ≡ encode_lower bytes → IfOk result (λ o. o ≡ Some bytes) }
{
    if !are_digits(text) {
        return Ok(None);
    }
    match hex::decode(alloc, text) {
        Ok(bytes) => Ok(Some(Items::from(bytes))),
        Err(FromHexError::OutOfMemory) => Err(OutOfMemory),
        Err(FromHexError::OddLength) => Ok(None),
        Err(FromHexError::InvalidStringLength) => Ok(None),
        Err(FromHexError::InvalidHexCharacter { .. }) => Ok(None),
    }
}
