//! The reading of the words.

ghost use Rattle.std.specs.Prelude.{◌≡◌, IfOk, None, Some};
ghost use Rattle.ab_words.specs.Found.{HasOnly};
ghost use Rattle.ab_words.specs.Language.{audit_of, cluster_in, cluster_of as cluster_words, command_in, command_of, keys_in, keys_of, node_in, node_of, storm_in, storm_of};
ghost use Rattle.ab_words.specs.Options.{cluster_options, keys_options, node_options, storm_options};
ghost use Rattle.ab_words.specs.Uses.{texts};

use crate::command::{ClusterCommand, Command, KeysCommand, NodeCommand, StormCommand};
use crate::limits::{HIGHEST_BASE, LONGEST_WAIT, MOST_TURNS};
use crate::names::{plan_named, scheme_named, service_named};
use crate::options::{
    BASE, CLIENTS, CLUSTER, EVENTS, F, KEYS, LMS, NODE, PARTY, PLAN, SEED, SERVICE, STORM, TURNS,
    WAIT, WHY,
};
use crate::uses::{Uses, uses_in};
use crate::values::{checkpoint_of, journal_of, number_of};
use ab_key_text::party_in;
use ab_keys::is_party;
use ab_num::{MOST_EVENTS, OutOfMemory};
use ab_text::{bytes_in, cluster_of};
use std::alloc::Global;

/// Whose keys the uses ask for.
#[tactic(auto, unfolding(crate::specs::Language::keys_in))]
fn keys_in(uses: &Uses<'_>) -> Option<KeysCommand>
    requires { HasOnly keys_options uses.now }
    ensures { result ≡ keys_in uses.now }
{
    let plan = plan_named(uses.value_of(PLAN)?)?;
    let f = number_of(uses, F, 1, 2)? as u8;
    let clients = number_of(uses, CLIENTS, 1, 16)? as u16;
    let service = service_named(uses.value_of(SERVICE)?)?;
    let lms = scheme_named(uses.value_of(LMS)?)?;
    let seed = bytes_in(uses.value_of(SEED)?)?;
    let party = party_in(uses.value_of(PARTY)?)?;
    let every = checkpoint_of(uses, plan)?.unwrap_or(0);
    let cluster = cluster_of(f, clients, plan, every);
    if is_party(&cluster, party) {
        Some(KeysCommand::new(cluster, service, lms, seed, party))
    } else {
        None
    }
}

/// The storm that the uses ask for.
#[tactic(auto, unfolding(crate::specs::Language::storm_in))]
fn storm_in(uses: &Uses<'_>) -> Option<StormCommand>
    requires { HasOnly storm_options uses.now }
    ensures { result ≡ storm_in uses.now }
{
    let plan = plan_named(uses.value_of(PLAN)?)?;
    let f = number_of(uses, F, 1, 2)? as u8;
    let clients = number_of(uses, CLIENTS, 1, 16)? as u16;
    let seed = number_of(uses, SEED, 0, u64::MAX)?;
    let events = number_of(uses, EVENTS, 0, MOST_EVENTS as u64)? as u32;
    let cluster = cluster_of(f, clients, plan, 0);
    Some(StormCommand {
        cluster,
        seed,
        events,
    })
}

/// The node that the uses ask for.
#[tactic(auto, unfolding(crate::specs::Language::node_in))]
fn node_in(uses: &Uses<'_>) -> Option<NodeCommand>
    requires { HasOnly node_options uses.now }
    ensures { result ≡ node_in uses.now }
{
    let base = number_of(uses, BASE, 1, HIGHEST_BASE)? as u16;
    let wait = number_of(uses, WAIT, 1, LONGEST_WAIT)? as u16;
    let turns = number_of(uses, TURNS, 1, MOST_TURNS)? as u32;
    let trace = uses.trace();
    let journal = journal_of(uses)?;
    Some(NodeCommand {
        base,
        wait,
        turns,
        trace,
        journal,
    })
}

/// The cluster that the uses ask for.
#[tactic(auto, unfolding(crate::specs::Language::cluster_in))]
fn cluster_in(uses: &Uses<'_>) -> Option<ClusterCommand>
    requires { HasOnly cluster_options uses.now }
    ensures { result ≡ cluster_in uses.now }
{
    let plan = plan_named(uses.value_of(PLAN)?)?;
    let f = number_of(uses, F, 1, 2)? as u8;
    let service = service_named(uses.value_of(SERVICE)?)?;
    let lms = scheme_named(uses.value_of(LMS)?)?;
    let key_seed = bytes_in(uses.value_of(SEED)?)?;
    let first_port = number_of(uses, BASE, 1, HIGHEST_BASE)? as u16;
    let wait = number_of(uses, WAIT, 1, LONGEST_WAIT)? as u16;
    let turns = number_of(uses, TURNS, 1, MOST_TURNS)? as u32;
    let every = checkpoint_of(uses, plan)?.unwrap_or(0);
    let cluster = cluster_of(f, 1, plan, every);
    Some(ClusterCommand {
        cluster,
        service,
        lms,
        seed: key_seed,
        base: first_port,
        wait,
        turns,
    })
}

/// Whose keys the words ask for.
fn keys_of<'a>(alloc: Global, words: &'a [&'a str]) -> Result<Option<Command>, OutOfMemory>
    ensures { IfOk result (λ c. c ≡ keys_of (texts words.entry.now)) }
{
    match uses_in(alloc, KEYS, words)? {
        None => Ok(None),
        Some(uses) => Ok(match keys_in(&uses) {
            None => None,
            Some(keys) => Some(Command::Keys(keys)),
        }),
    }
}

/// The storm that the words ask for.
fn storm_of<'a>(alloc: Global, words: &'a [&'a str]) -> Result<Option<Command>, OutOfMemory>
    ensures { IfOk result (λ c. c ≡ storm_of (texts words.entry.now)) }
{
    match uses_in(alloc, STORM, words)? {
        None => Ok(None),
        Some(uses) => Ok(match storm_in(&uses) {
            None => None,
            Some(storm) => Some(Command::Storm(storm)),
        }),
    }
}

/// The node that the words ask for.
fn node_of<'a>(alloc: Global, words: &'a [&'a str]) -> Result<Option<Command>, OutOfMemory>
    ensures { IfOk result (λ c. c ≡ node_of (texts words.entry.now)) }
{
    match uses_in(alloc, NODE, words)? {
        None => Ok(None),
        Some(uses) => Ok(match node_in(&uses) {
            None => None,
            Some(node) => Some(Command::Node(node)),
        }),
    }
}

/// The cluster that the words ask for.
fn cluster_words<'a>(alloc: Global, words: &'a [&'a str]) -> Result<Option<Command>, OutOfMemory>
    ensures { IfOk result (λ c. c ≡ cluster_words (texts words.entry.now)) }
{
    match uses_in(alloc, CLUSTER, words)? {
        None => Ok(None),
        Some(uses) => Ok(match cluster_in(&uses) {
            None => None,
            Some(cluster) => Some(Command::Cluster(cluster)),
        }),
    }
}

/// The audit that the words ask for.
fn audit_of(words: &[&str]) -> Option<Command>
    ensures { result ≡ audit_of (texts words.now) }
{
    match words {
        [] => Some(Command::Audit { why: false }),
        [word] => {
            if *word == WHY {
                Some(Command::Audit { why: true })
            } else {
                None
            }
        }
        _ => None,
    }
}

/// The command that the words are, of which the first is its name.
#[tactic(auto, unfolding(crate::specs::Language::command_of))]
fn command_of<'a>(
    alloc: Global,
    name: &[u8],
    words: &'a [&'a str],
) -> Result<Option<Command>, OutOfMemory>
    ensures { IfOk result (λ c. c ≡ command_of name.now (texts words.now)) }
{
    if name == b"replay".as_slice() {
        return Ok(if words.is_empty() {
            Some(Command::Replay)
        } else {
            None
        });
    }
    if name == b"storm".as_slice() {
        return storm_of(alloc, words);
    }
    if name == b"keys".as_slice() {
        return keys_of(alloc, words);
    }
    if name == b"node".as_slice() {
        return node_of(alloc, words);
    }
    if name == b"audit".as_slice() {
        return Ok(audit_of(words));
    }
    if name == b"cluster".as_slice() {
        return cluster_words(alloc, words);
    }
    Ok(None)
}

/// The command that the words are, or None where they are none.
pub fn command_in<'a>(alloc: Global, words: &'a [&'a str]) -> Result<Option<Command>, OutOfMemory>
    ensures { IfOk result (λ c. c ≡ command_in (texts words.now)) }
{
    match words {
        [] => Ok(None),
        [name, rest @ ..] => command_of(alloc, name.as_bytes(), rest),
    }
}
