//! The parts of a line.

ghost use Rattle.std.specs.Prelude.{◌≡◌, ◌≤◌, ◌++◌, ◌<◌, codes, Option};
ghost use Rattle.std.specs.Option.{option_and_then, option_copied};
ghost use Rattle.ab_text.specs.Cores.{party_text};
ghost use Rattle.ab_text.specs.Heads.{stripped};
ghost use Rattle.ab_key_text.specs.Lines.{bytes_after, key_in, number_in, party_in};
ghost use Rattle.ab_key_text.specs.Reading.{secret_in, secret_text_in};
ghost use Rattle.ab_scheme.specs.Schemes.{public_length};

use crate::secret::Secret;
use ab_num::{Party, Scheme};
use ab_scheme::PublicKey;
use ab_text::{after, bytes_in, word_number};

/// What comes after a party.
fn after_party(text: &[u8], p: Party) -> Option<&[u8]>
    ensures { option_copied result ≡ stripped (party_text p) text.now }
{
    let mut digits = itoa::Buffer::new();
    match p {
        Party::Replica(r) => after(after(text, b"r")?, digits.format(r).as_bytes()),
        Party::Client(c) => after(after(text, b"c")?, digits.format(c).as_bytes()),
    }
}

/// What comes after a word, a party and a space.
fn after_peer<'a>(line: &'a [u8], word: &[u8], p: Party) -> Option<&'a [u8]>
    ensures { option_copied result ≡ stripped (word.now ++ party_text p ++ codes " ") line.now }
{
    match after(line, word) {
        None => None,
        Some(named) => match after_party(named, p) {
            None => None,
            Some(rest) => after(rest, b" "),
        },
    }
}

/// A word, and a number within bounds.
pub(crate) fn number_in(line: &[u8], word: &[u8], low: u64, high: u64) -> Option<u64>
    ensures { result ≡ number_in word.now low high line.now }
{
    let number = word_number(line, word)?;
    if number >= low && number <= high {
        Some(number)
    } else {
        None
    }
}

/// The party that a text names.
pub fn party_in(text: &[u8]) -> Option<Party>
    ensures { result ≡ party_in text.now }
{
    if let Some(r) = number_in(text, b"r", 0, 255) {
        return Some(Party::Replica(r as u8));
    }
    let c = number_in(text, b"c", 0, 65535)?;
    Some(Party::Client(c as u16))
}

/// The party of line 2.
pub(crate) fn named_party(line: &[u8]) -> Option<Party>
    ensures { result ≡ option_and_then party_in (stripped (codes "party ") line.now) }
{
    party_in(after(line, b"party ")?)
}

/// A word, and `N` bytes.
fn bytes_after<const N: usize>(line: &[u8], word: &[u8]) -> Option<[u8; N]>
    requires { N ≤ 60 }
    ensures { result ≡ bytes_after word.now N line.now }
{
    bytes_in(after(line, word)?)
}

/// A word, a party and a key of `N` bytes.
pub(crate) fn key_in<const N: usize>(line: &[u8], word: &[u8], p: Party) -> Option<[u8; N]>
    requires { N ≤ 60 }
    ensures { result ≡ key_in word.now p N line.now }
{
    bytes_in(after_peer(line, word, p)?)
}

/// The word `public`, a party and a public key of one level.
fn one_level_in(line: &[u8], p: Party) -> Option<PublicKey>
    ensures { result ≡ key_in (codes "public ") p 56 line.now }
{
    let bytes = key_in(line, b"public ", p)?;
    Some(PublicKey::one_level(bytes))
}

/// The word `public`, a party and a public key of two levels.
fn two_levels_in(line: &[u8], p: Party) -> Option<PublicKey>
    ensures { result ≡ key_in (codes "public ") p 60 line.now }
{
    let bytes: [u8; 60] = key_in(line, b"public ", p)?;
    PublicKey::read(Scheme::Hss, &bytes)
}

/// The word `public`, a party and a public key of this scheme.
pub(crate) fn public_in(line: &[u8], lms: Scheme, p: Party) -> Option<PublicKey>
    ensures { result ≡ key_in (codes "public ") p (public_length lms) line.now }
{
    match lms {
        Scheme::Lms(_) => one_level_in(line, p),
        Scheme::Hss => two_levels_in(line, p),
    }
}

/// The secret that a text spells.
fn secret_text_in(text: &[u8]) -> Option<Secret>
    ensures { result ≡ secret_text_in text.now }
{
    let middle = text.len().min(32);
    match bytes_in(&text[..middle]) {
        None => None,
        Some(id) => match bytes_after(&text[middle..], b" ") {
            None => None,
            Some(seed) => Some(Secret::new(id, seed)),
        },
    }
}

/// The secret of a line.
pub(crate) fn secret_in(line: &[u8]) -> Option<Secret>
    ensures { result ≡ secret_in line.now }
{
    secret_text_in(after(line, b"secret ")?)
}
