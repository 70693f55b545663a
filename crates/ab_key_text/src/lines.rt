//! One line after the other.

ghost use Rattle.std.specs.Prelude.{◌≡◌, ◌≤◌, IfOk, codes, length};
ghost use Rattle.std.specs.Option.{option_and_then};
ghost use Rattle.ab_text.specs.Heads.{lms_line, plan_line, plans, service_line, services, spelled_in, stripped};
ghost use Rattle.ab_text.specs.Lines.{lines_of};
ghost use Rattle.ab_key_text.specs.Lines.{Gives, key_in, line_at, number_in, own_schemes, party_in};
ghost use Rattle.ab_key_text.specs.Reading.{every_at, secret_in};
ghost use Rattle.ab_scheme.specs.Schemes.{public_length};

use crate::fault::NodeFault;
use crate::parts::{key_in, named_party, number_in, public_in, secret_in};
use crate::secret::Secret;
use crate::version::KeyVersion;
use ab_num::{Party, Plan, Scheme, ServiceName};
use ab_scheme::PublicKey;
use ab_text::{most_built, next_line, one_level_in, plan_in, scheme_in, service_in, two_levels_in};

/// The number of line `n`, after its word, and what comes after that line.
pub fn number_at<'a>(
    text: &'a [u8],
    word: &[u8],
    low: u64,
    high: u64,
    n: u32,
) -> Result<(u64, &'a [u8]), NodeFault>
    ensures reads { Gives (λ p. (p.0, lines_of p.1.now)) result (line_at (number_in word.now low high) n (lines_of text.now)) }
    ensures low { IfOk result (λ p. low ≤ p.0) }
    ensures high { IfOk result (λ p. p.0 ≤ high) }
    ensures shorter { IfOk result (λ p. length p.1.now ≤ length text.now) }
{
    match next_line(text) {
        None => Err(NodeFault::NoEnd(n)),
        Some((line, rest)) => match number_in(line, word, low, high) {
            None => Err(NodeFault::BadLine(n)),
            Some(number) => Ok((number, rest)),
        },
    }
}

/// The party of line `n`, and what comes after that line.
pub(crate) fn party_at<'a>(text: &'a [u8], n: u32) -> Result<(Party, &'a [u8]), NodeFault>
    ensures reads { Gives (λ p. (p.0, lines_of p.1.now)) result (line_at (λ l. option_and_then party_in (stripped (codes "party ") l)) n (lines_of text.now)) }
    ensures shorter { IfOk result (λ p. length p.1.now ≤ length text.now) }
{
    match next_line(text) {
        None => Err(NodeFault::NoEnd(n)),
        Some((line, rest)) => match named_party(line) {
            None => Err(NodeFault::BadLine(n)),
            Some(found) => Ok((found, rest)),
        },
    }
}

/// The plan of line `n`, and what comes after that line.
pub(crate) fn plan_at<'a>(text: &'a [u8], n: u32) -> Result<(Plan, &'a [u8]), NodeFault>
    ensures reads { Gives (λ p. (p.0, lines_of p.1.now)) result (line_at (spelled_in plan_line plans) n (lines_of text.now)) }
    ensures shorter { IfOk result (λ p. length p.1.now ≤ length text.now) }
{
    match next_line(text) {
        None => Err(NodeFault::NoEnd(n)),
        Some((line, rest)) => match plan_in(line) {
            None => Err(NodeFault::BadLine(n)),
            Some(found) => Ok((found, rest)),
        },
    }
}

/// The service of line `n`, and what comes after that line.
pub(crate) fn service_at<'a>(text: &'a [u8], n: u32) -> Result<(ServiceName, &'a [u8]), NodeFault>
    ensures reads { Gives (λ p. (p.0, lines_of p.1.now)) result (line_at (spelled_in service_line services) n (lines_of text.now)) }
    ensures shorter { IfOk result (λ p. length p.1.now ≤ length text.now) }
{
    match next_line(text) {
        None => Err(NodeFault::NoEnd(n)),
        Some((line, rest)) => match service_in(line) {
            None => Err(NodeFault::BadLine(n)),
            Some(found) => Ok((found, rest)),
        },
    }
}

/// The scheme that a line names, where a text of this version may name it.
fn own_scheme_in(version: KeyVersion, line: &[u8]) -> Option<Scheme>
    ensures { result ≡ spelled_in lms_line (own_schemes version) line.now }
{
    match version {
        KeyVersion::One => one_level_in(line),
        KeyVersion::Two => two_levels_in(line),
        KeyVersion::Three => scheme_in(line),
    }
}

/// The scheme of line `n` in a text of this version, and what comes after that line.
pub(crate) fn scheme_at<'a>(
    text: &'a [u8],
    version: KeyVersion,
    n: u32,
) -> Result<(Scheme, &'a [u8]), NodeFault>
    ensures reads { Gives (λ p. (p.0, lines_of p.1.now)) result (line_at (spelled_in lms_line (own_schemes version)) n (lines_of text.now)) }
    ensures shorter { IfOk result (λ p. length p.1.now ≤ length text.now) }
{
    match next_line(text) {
        None => Err(NodeFault::NoEnd(n)),
        Some((line, rest)) => match own_scheme_in(version, line) {
            None => Err(NodeFault::BadLine(n)),
            Some(found) => Ok((found, rest)),
        },
    }
}

/// After how many requests a checkpoint is due (0: never), and what comes after line 8, which says it if the version has
/// such a line.
pub(crate) fn every_at(
    text: &[u8],
    version: KeyVersion,
    plan: Plan,
) -> Result<(u16, &[u8]), NodeFault>
    ensures reads { Gives (λ p. (p.0, lines_of p.1.now)) result (every_at version plan (lines_of text.now)) }
    ensures few { IfOk result (λ p. p.0 ≤ 128) }
    ensures shorter { IfOk result (λ p. length p.1.now ≤ length text.now) }
{
    match version {
        KeyVersion::One | KeyVersion::Two => Ok((0, text)),
        KeyVersion::Three => {
            let (every, rest) = number_at(text, b"checkpoint ", 1, most_built(plan), 8)?;
            Ok((every as u16, rest))
        }
    }
}

/// The secret of line `n`, and what comes after that line.
pub(crate) fn secret_line_at<'a>(text: &'a [u8], n: u32) -> Result<(Secret, &'a [u8]), NodeFault>
    ensures reads { Gives (λ p. (p.0, lines_of p.1.now)) result (line_at secret_in n (lines_of text.now)) }
    ensures shorter { IfOk result (λ p. length p.1.now ≤ length text.now) }
{
    match next_line(text) {
        None => Err(NodeFault::NoEnd(n)),
        Some((line, rest)) => match secret_in(line) {
            None => Err(NodeFault::BadLine(n)),
            Some(found) => Ok((found, rest)),
        },
    }
}

/// The key of `N` bytes in line `n`, after a word and a party, and what comes after that line.
pub(crate) fn key_at<'a, const N: usize>(
    text: &'a [u8],
    word: &[u8],
    p: Party,
    n: u32,
) -> Result<([u8; N], &'a [u8]), NodeFault>
    requires { N ≤ 60 }
    ensures reads { Gives (λ p. (p.0, lines_of p.1.now)) result (line_at (key_in word.now p N) n (lines_of text.now)) }
    ensures shorter { IfOk result (λ p. length p.1.now ≤ length text.now) }
{
    match next_line(text) {
        None => Err(NodeFault::NoEnd(n)),
        Some((line, rest)) => match key_in(line, word, p) {
            None => Err(NodeFault::BadLine(n)),
            Some(found) => Ok((found, rest)),
        },
    }
}

/// The public key of a party in line `n`, and what comes after that line.
pub(crate) fn public_at<'a>(
    text: &'a [u8],
    lms: Scheme,
    p: Party,
    n: u32,
) -> Result<(PublicKey, &'a [u8]), NodeFault>
    ensures reads { Gives (λ p. (p.0, lines_of p.1.now)) result (line_at (key_in (codes "public ") p (public_length lms)) n (lines_of text.now)) }
    ensures shorter { IfOk result (λ p. length p.1.now ≤ length text.now) }
{
    match next_line(text) {
        None => Err(NodeFault::NoEnd(n)),
        Some((line, rest)) => match public_in(line, lms, p) {
            None => Err(NodeFault::BadLine(n)),
            Some(found) => Ok((found, rest)),
        },
    }
}
