//! The reading of a key text.

ghost use Rattle.std.specs.Prelude.{◌≡◌, ◌≤◌, ◌<◌, ◌^◌, ◌+◌, ◌*◌, [], IfOk, MatchResult, length};
ghost use Rattle.ab_text.specs.Lines.{lines_of};
ghost use Rattle.ab_key_text.specs.Keys.{peers_in, replicas};
ghost use Rattle.ab_key_text.specs.Lines.{Gives};
ghost use Rattle.ab_key_text.specs.Reading.{IsKeyFault, keys_after, keys_at, keys_in, peers_at, publics_at, secret_at};
ghost use Rattle.ab_scheme.specs.Schemes.{public_length};

use crate::fault::{KeyFault, NodeFault};
use crate::key_lines::{KeyLines, setting_of};
use crate::keys::PartyKeys;
use crate::lines::{key_at, public_at, secret_line_at};
use crate::peers::{peers_in, replicas};
use crate::secret::Secret;
use crate::shared::Shared;
use ab_num::{Party, Scheme};
use ab_scheme::PublicKey;
use ab_text::next_line;
use std::alloc::Global;

/// What was read, the number of the next line, and what comes from it on.
#[derive(Drop)]
pub struct Read<'a, T> {
    pub value: T,
    pub next: u32,
    pub rest: &'a [u8],
}

/// The secret of a replica, from line `first` on.
fn secret_of(text: &[u8], me: Party, first: u32) -> Result<Read<'_, Option<Secret>>, NodeFault>
    requires { first ≤ 9 }
    ensures reads { Gives (λ p. record { value = p.value; next = p.next; rest = lines_of p.rest.now }) result (secret_at me first (lines_of text.now)) }
    ensures few { IfOk result (λ p. p.next ≤ 10) }
    ensures shorter { IfOk result (λ p. length p.rest.now ≤ length text.now) }
{
    match me {
        Party::Client(_) => Ok(Read {
            value: None,
            next: first,
            rest: text,
        }),
        Party::Replica(_) => {
            let (secret, rest) = secret_line_at(text, first)?;
            Ok(Read {
                value: Some(secret),
                next: first + 1,
                rest,
            })
        }
    }
}

/// What is shared with these parties, from line `first` on.
fn peers_of<'a>(
    alloc: Global,
    text: &'a [u8],
    parties: &[Party],
    first: u32,
) -> Result<Read<'a, Vec<Shared>>, NodeFault>
    requires { first + 2 * length parties.now < 2 ^ 16 }
    ensures reads { Gives (λ p. record { value = p.value.items; next = p.next; rest = lines_of p.rest.now }) result (peers_at parties.now [] first (lines_of text.now)) }
    ensures few { IfOk result (λ p. p.next ≡ first + 2 * length parties.now) }
    ensures shorter { IfOk result (λ p. length p.rest.now ≤ length text.now) }
{
    let mut shared = Vec::new(alloc);
    let mut next = first;
    let mut rest = text;
    for p in parties {
        let (to, behind) = key_at(rest, b"out ", *p, next)?;
        let (from, behind) = key_at(behind, b"in ", *p, next + 1)?;
        shared.push(Shared::new(*p, to, from))?;
        next += 2;
        rest = behind;
    }
    Ok(Read {
        value: shared,
        next,
        rest,
    })
}

/// The public keys of these replicas, which sign by this scheme, from line `first` on.
pub fn publics_of<'a>(
    alloc: Global,
    text: &'a [u8],
    lms: Scheme,
    parties: &[Party],
    first: u32,
) -> Result<Read<'a, Vec<PublicKey>>, NodeFault>
    requires { first + length parties.now < 2 ^ 16 }
    ensures reads { Gives (λ p. record { value = p.value.items; next = p.next; rest = lines_of p.rest.now }) result (publics_at (public_length lms) parties.now [] first (lines_of text.now)) }
    ensures few { IfOk result (λ p. p.next ≡ first + length parties.now) }
    ensures shorter { IfOk result (λ p. length p.rest.now ≤ length text.now) }
{
    let mut publics = Vec::new(alloc);
    let mut next = first;
    let mut rest = text;
    for p in parties {
        let (key, behind) = match public_at(rest, lms, *p, next) {
            Ok(read) => read,
            Err(fault) => return Err(fault),
        };
        publics.push(key)?;
        next += 1;
        rest = behind;
    }
    Ok(Read {
        value: publics,
        next,
        rest,
    })
}

/// The keys of a party, from line `first` on.
#[tactic(auto, unfolding(crate::specs::Reading::keys_after))]
fn keys_after(
    alloc: Global,
    setting: KeyLines,
    text: &[u8],
    first: u32,
) -> Result<Read<'_, PartyKeys>, NodeFault>
    requires { first ≤ 9 }
    ensures reads { Gives (λ p. record { value = p.value; next = p.next; rest = lines_of p.rest.now }) result (keys_after setting first (lines_of text.now)) }
    ensures few { IfOk result (λ p. p.next < 2 ^ 16) }
    ensures shorter { IfOk result (λ p. length p.rest.now ≤ length text.now) }
{
    let replicas = replicas(alloc, setting.cluster())?;
    let others = peers_in(alloc, setting.cluster(), setting.me())?;
    let secret = secret_of(text, setting.me(), first)?;
    let shared = peers_of(alloc, secret.rest, &others, secret.next)?;
    let publics = publics_of(alloc, shared.rest, setting.scheme(), &replicas, shared.next)?;
    Ok(Read {
        value: setting.with(secret.value, shared.value, publics.value),
        next: publics.next,
        rest: publics.rest,
    })
}

/// The keys at the front of a text.
#[tactic(auto, unfolding(crate::specs::Reading::keys_at))]
pub(crate) fn keys_at(alloc: Global, text: &[u8]) -> Result<Read<'_, PartyKeys>, NodeFault>
    ensures reads { Gives (λ p. record { value = p.value; next = p.next; rest = lines_of p.rest.now }) result (keys_at (lines_of text.now)) }
    ensures few { IfOk result (λ p. p.next < 2 ^ 16) }
    ensures shorter { IfOk result (λ p. length p.rest.now ≤ length text.now) }
{
    let setting = setting_of(text)?;
    keys_after(alloc, setting.value, setting.rest, setting.next)
}

/// The keys that a text spells, to its end.
#[tactic(auto, unfolding(crate::specs::Reading::keys_in))]
fn keys_in(alloc: Global, text: &[u8]) -> Result<PartyKeys, NodeFault>
    ensures { Gives (λ k. k) result (keys_in (lines_of text.now)) }
{
    let keys = keys_at(alloc, text)?;
    match next_line(keys.rest) {
        None => Ok(keys.value),
        Some(_) => Err(NodeFault::BadLine(keys.next)),
    }
}

impl PartyKeys {
    /// The keys that a key text spells. A bad line is the first that isn't as stated, or is missing.
    pub fn read(alloc: Global, text: &[u8]) -> Result<PartyKeys, KeyFault>
        ensures { MatchResult result
            (λ k. keys_in (lines_of text.now) ≡ Ok k)
            (λ e. IsKeyFault e (keys_in (lines_of text.now))) }
    {
        match keys_in(alloc, text) {
            Ok(keys) => Ok(keys),
            Err(fault) => Err(KeyFault::from(fault)),
        }
    }
}
