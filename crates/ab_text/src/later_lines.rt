//! The lines of the head that only later versions have.

ghost use Rattle.std.specs.Prelude.{◌≡◌, ◌≤◌, [], IfOk, length};
ghost use Rattle.ab_text.specs.Heads.{Gives, checkpoint_at, every_at, head_count, head_count_in, most_built, most_every, no_seed, seed_at, seed_in, seed_with, version_of as least_version};
ghost use Rattle.ab_text.specs.Lines.{lines_of};
ghost use Rattle.ab_text.specs.Schedules.{script_of};

use crate::fault::TextFault;
use crate::head::{numbered, version_in, version_with};
use crate::hex_bytes::bytes_in;
use crate::lines::next_line;
use crate::parts::after;
use crate::schedule::Head;
use crate::version::Version;
use ab_num::Plan;

/// The seed of a schedule that names none.
pub(crate) const NO_SEED: [u8; 32] = [0; 32];

/// How many lines the head has in a schedule of this version.
pub(crate) fn head_count(version: Version) -> u32
    ensures count { result ≡ head_count version }
    ensures few { result ≤ 8 }
{
    match version {
        Version::One | Version::Two => 6,
        Version::Three => 7,
        Version::Four => 8,
    }
}

/// How many lines the head of this schedule has. It is said by the first one.
pub fn lines_of_head(text: &[u8]) -> u32
    ensures count { result ≡ head_count_in (lines_of text.now) }
    ensures few { result ≤ 8 }
{
    match next_line(text) {
        None => 6,
        Some((line, _)) => match version_in(line) {
            None => 6,
            Some(version) => head_count(version),
        },
    }
}

/// After how many requests a checkpoint may be due at most.
fn most_every(plan: Plan) -> u64
    ensures most { result ≡ most_every plan }
    ensures few { result ≤ 128 }
{
    match plan {
        Plan::AZyzzyva | Plan::Aliph | Plan::Quorum | Plan::ZLight | Plan::Chain | Plan::Backup =>
            128,
        Plan::ZCert => 0,
    }
}

/// After how many requests a checkpoint may be due at most in what is built.
pub fn most_built(plan: Plan) -> u64
    ensures most { result ≡ most_built plan }
    ensures few { result ≤ 128 }
{
    match plan {
        Plan::Quorum | Plan::ZLight | Plan::Chain => 128,
        Plan::AZyzzyva | Plan::Aliph | Plan::Backup | Plan::ZCert => 0,
    }
}

/// After how many requests a checkpoint is due, by line 7, and what comes after that line.
fn checkpoint_at(plan: Plan, text: &[u8]) -> Result<(u16, &[u8]), TextFault>
    ensures reads { Gives (λ p. (p.0, lines_of p.1.now)) result (checkpoint_at plan (lines_of text.now)) }
    ensures few { IfOk result (λ p. p.0 ≤ 128) }
    ensures shorter { IfOk result (λ p. length p.1.now ≤ length text.now) }
{
    let (every, rest) = numbered(text, b"checkpoint ", 0, most_every(plan), 7)?;
    if every <= most_built(plan) {
        Ok((every as u16, rest))
    } else {
        Err(TextFault::NotBuilt(7))
    }
}

/// After how many requests a checkpoint is due, and what comes after the line that says it, if the version has one.
pub(crate) fn every_at(version: Version, plan: Plan, text: &[u8]) -> Result<(u16, &[u8]), TextFault>
    ensures reads { Gives (λ p. (p.0, lines_of p.1.now)) result (every_at version plan (lines_of text.now)) }
    ensures few { IfOk result (λ p. p.0 ≤ 128) }
    ensures shorter { IfOk result (λ p. length p.1.now ≤ length text.now) }
{
    match version {
        Version::One | Version::Two => Ok((0, text)),
        Version::Three | Version::Four => checkpoint_at(plan, text),
    }
}

/// The seed in a line.
fn seed_in(line: &[u8]) -> Option<[u8; 32]>
    ensures { result ≡ seed_in line.now }
{
    bytes_in(after(line, b"seed ")?)
}

/// The seed in line 8, and what comes after that line.
fn seed_at(text: &[u8]) -> Result<([u8; 32], &[u8]), TextFault>
    ensures reads { Gives (λ p. (p.0, lines_of p.1.now)) result (seed_at (lines_of text.now)) }
    ensures shorter { IfOk result (λ p. length p.1.now ≤ length text.now) }
{
    match next_line(text) {
        None => Err(TextFault::NoEnd(8)),
        Some((line, rest)) => match seed_in(line) {
            None => Err(TextFault::BadLine(8)),
            Some(seed) => Ok((seed, rest)),
        },
    }
}

/// The seed, and what comes after its line, if the version has one.
pub(crate) fn seed_with(version: Version, text: &[u8]) -> Result<([u8; 32], &[u8]), TextFault>
    ensures reads { Gives (λ p. (p.0, lines_of p.1.now)) result (seed_with version (lines_of text.now)) }
    ensures shorter { IfOk result (λ p. length p.1.now ≤ length text.now) }
{
    match version {
        Version::One | Version::Two | Version::Three => Ok((NO_SEED, text)),
        Version::Four => seed_at(text),
    }
}

/// The least version that has all of a head.
pub(crate) fn version_of(head: &Head) -> Version
    ensures { result ≡ least_version (script_of head.now []) }
{
    if head.seed.as_slice() != NO_SEED.as_slice() {
        return Version::Four;
    }
    if head.cluster.every != 0 {
        return Version::Three;
    }
    version_with(head.lms)
}
