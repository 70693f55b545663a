//! What a content says, in words.

ghost use Rattle.std.specs.Prelude.{◌≡◌, ◌++◌, IfOk, codes, map, string_bytes};
ghost use Rattle.hex.specs.Hex.{encode_lower};
ghost use Rattle.ab_hist.specs.Requests.{key_of};
ghost use Rattle.ab_text.specs.Reports.{◌then◌, log_line};
ghost use Rattle.ab_check.specs.Listing.{claimed};
ghost use Rattle.ab_content.specs.Views.{content as shown, history as requests_in};
ghost use Rattle.ab_audit.specs.Exhibits.{trimmed_line, words_of};

use ab_check::ClaimRef;
use ab_content::{ContentRef, HistoryRef};
use ab_num::{OutOfMemory, Party};
use ab_text::write_log;
use std::alloc::{AllocError, Global};

/// Client and stamp of each request of a history, in its order.
fn entries(alloc: Global, history: &HistoryRef<'_>) -> Result<Vec<(u16, u64)>, OutOfMemory>
    ensures { IfOk result (λ v. v.items ≡ map key_of (requests_in history.now)) }
{
    let mut entries = Vec::new(alloc);
    'requests: for request in history.entries() {
        entries.push((request.client, request.stamp))?;
    }
    Ok(entries)
}

/// The log that a replica states.
fn log_words(
    alloc: Global,
    replica: u8,
    instance: u32,
    history: &HistoryRef<'_>,
) -> Result<Vec<u8>, OutOfMemory>
    ensures { IfOk result (λ v. v.items ≡ log_line replica instance 0 (map key_of (requests_in history.now))) }
{
    let entries = entries(alloc, history)?;
    let mut words = Vec::new(alloc);
    write_log(alloc, &mut words, replica, instance, 0, entries.as_slice())?;
    Ok(words)
}

fn trimmed_string(alloc: Global, start: u16, digest: &[u8; 32]) -> Result<String, AllocError>
    ensures { IfOk result (λ s. string_bytes s ≡ trimmed_line start digest.now) }
{
    let digits = hex::encode(alloc, digest)?;
    format!(in alloc; "trimmed {start} {digits}\n")
}

/// The log that a replica states, and what is trimmed of it.
fn trimmed_words(
    alloc: Global,
    replica: u8,
    instance: u32,
    start: u16,
    digest: &[u8; 32],
    rest: &HistoryRef<'_>,
) -> Result<Vec<u8>, OutOfMemory>
    ensures { IfOk result (λ v. v.items ≡ trimmed_line start digest.now ++ log_line replica instance 0 (map key_of (requests_in rest.now))) }
{
    let line = trimmed_string(alloc, start, digest)?;
    let entries = entries(alloc, rest)?;
    let mut words = Vec::from_slice(alloc, line.as_bytes())?;
    write_log(alloc, &mut words, replica, instance, 0, entries.as_slice())?;
    Ok(words)
}

fn digest_string(alloc: Global, digest: &[u8; 32]) -> Result<String, AllocError>
    ensures { IfOk result (λ s. string_bytes s ≡ (codes "digest " then encode_lower digest.now then codes "\n")) }
{
    let digits = hex::encode(alloc, digest)?;
    format!(in alloc; "digest {digits}\n")
}

/// The digest that a replica states.
fn digest_words(alloc: Global, digest: &[u8; 32]) -> Result<Vec<u8>, OutOfMemory>
    ensures { IfOk result (λ v. v.items ≡ (codes "digest " then encode_lower digest.now then codes "\n")) }
{
    let line = digest_string(alloc, digest)?;
    Ok(Vec::from_slice(alloc, line.as_bytes())?)
}

/// What a content says.
fn words_in(alloc: Global, content: &ContentRef<'_>) -> Result<Vec<u8>, OutOfMemory>
    ensures { IfOk result (λ v. v.items ≡ words_of (shown content.now)) }
{
    match content {
        ContentRef::Abort {
            maker: Party::Replica(replica),
            instance,
            history,
        } => log_words(alloc, *replica, *instance, history),
        ContentRef::AbortZ {
            maker: Party::Replica(replica),
            instance,
            history,
            ..
        } => log_words(alloc, *replica, *instance, history),
        ContentRef::TrimmedAbort {
            maker: Party::Replica(replica),
            instance,
            start,
            digest,
            rest,
        } => trimmed_words(alloc, *replica, *instance, *start, digest, rest),
        ContentRef::Prepare { x, .. } => digest_words(alloc, x),
        _ => Ok(Vec::new(alloc)),
    }
}

/// What is claimed.
#[tactic(auto, using(crate::proofs::SubjectLemmas::said_words))]
pub(crate) fn words(alloc: Global, claim: &ClaimRef<'_>) -> Result<Vec<u8>, OutOfMemory>
    ensures { IfOk result (λ v. v.items ≡ words_of (claimed claim.now)) }
{
    match claim {
        ClaimRef::Received { content, .. } => words_in(alloc, content),
        ClaimRef::Asked { .. } => Ok(Vec::new(alloc)),
        ClaimRef::Said { .. } => Ok(Vec::new(alloc)),
        ClaimRef::Answered { .. } => Ok(Vec::new(alloc)),
        ClaimRef::Prepared { x, .. } => digest_words(alloc, x),
    }
}
