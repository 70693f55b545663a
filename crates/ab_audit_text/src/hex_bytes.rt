//! The bytes of a message as hexadecimal text in lower case.

ghost use Rattle.std.specs.Prelude.{◌≡◌, ◌≤◌, ◌↔◌, All, IfOk, IsTrue, length};
ghost use Rattle.ab_text.specs.HexDigits.{IsLowerDigit};
ghost use Rattle.ab_audit_text.specs.Texts.{message_bytes, message_in};

use ab_num::OutOfMemory;
use ab_text::{Items, after};
use hex::FromHexError;
use std::alloc::Global;

/// How many digits the longest text has.
const MOST_DIGITS: usize = 8_388_608;

/// Whether these are digits in lower case, for at least one byte and at most 4 MiB.
fn are_digits(text: &[u8]) -> bool
    ensures { IsTrue result ↔ ((1 ≤ length text.now) × (length text.now ≤ 8388608) × All IsLowerDigit text.now) }
{
    !text.is_empty()
        && text.len() <= MOST_DIGITS
        && text.iter().all(|b| (*b >= b'0' && *b <= b'9') || (*b >= b'a' && *b <= b'f'))
}

/// The bytes that a text spells.
fn message_bytes(alloc: Global, text: &[u8]) -> Result<Option<Items<u8>>, OutOfMemory>
    ensures { IfOk result (λ o. o ≡ message_bytes text.now) }
{
    if !are_digits(text) {
        return Ok(None);
    }
    match hex::decode(alloc, text) {
        Ok(bytes) => Ok(Some(Items::from(bytes))),
        Err(FromHexError::OutOfMemory) => Err(OutOfMemory),
        Err(FromHexError::OddLength) => Ok(None),
        Err(FromHexError::InvalidStringLength) => Ok(None),
        Err(FromHexError::InvalidHexCharacter { .. }) => Ok(None),
    }
}

/// The message of a line.
pub(crate) fn message_in(alloc: Global, line: &[u8]) -> Result<Option<Items<u8>>, OutOfMemory>
    ensures { IfOk result (λ o. o ≡ message_in line.now) }
{
    match after(line, b"message ") {
        None => Ok(None),
        Some(text) => message_bytes(alloc, text),
    }
}
