//! What a certificate with parts of its own agrees on if its lists may have forgotten their first entries.

ghost use Rattle.std.specs.Prelude.{◌≡◌, ◌≤◌, false, Some, All, map, IfOk, IfSome, IsNone};
ghost use Rattle.std.specs.List.{list_any};
ghost use Rattle.std.specs.Option.{option_map};
ghost use Rattle.ab_msg.specs.declared.content.Content.TheVariants.{TrimmedAbort};
ghost use Rattle.ab_msg.specs.Certs.{IsSigned};
ghost use Rattle.ab_msg.specs.Contents.{IsStopContent};
ghost use Rattle.ab_msg.specs.Fields.{IsSpellable};
ghost use Rattle.ab_trim.specs.Points.{lists_in};
ghost use Rattle.ab_stable.specs.Certs.{lists_of};
ghost use Rattle.ab_stable.specs.Offers.{all_stated, are_whole, is_trimmed, list_of, list_stated};
ghost use Rattle.ab_stable.specs.Owned.{seen};
ghost use Rattle.ab_stable.specs.Reading.{are_valid};

use crate::certificate::{MOST, agreed_in, are_enough, makes_checkpoints};
use ab_hist::History;
use ab_msg::{Content, Signed};
use ab_num::{Cluster, OutOfMemory, Party};
use ab_trim::{Trimmed, trimmed_of};
use arrayvec::ArrayVec;
use std::alloc::Global;

/// The list that a replica states as it aborts.
#[derive(Clone, Copy)]
struct OwnStated<'a> {
    by: u8,
    start: u16,
    digest: [u8; 32],
    rest: &'a History,
}

/// Whether it states a trimmed log.
fn is_trimmed(content: &Content) -> bool
    ensures { result ≡ is_trimmed content.now }
{
    match content {
        Content::TrimmedAbort { .. } => true,
        _ => false,
    }
}

/// Whether some ABORT states a trimmed log.
fn is_any_trimmed(aborts: &[Signed]) -> bool
    ensures { result ≡ list_any (λ s. is_trimmed s.content) aborts.now }
{
    aborts.iter().any(|s| is_trimmed(&s.content))
}

/// Whether each ABORT states a whole log.
pub fn are_whole_own(aborts: &[Signed]) -> bool
    ensures { result ≡ are_whole aborts.now }
{
    !is_any_trimmed(aborts)
}

/// A list of instance `i`, if that is `j` and its maker is a replica of the cluster.
fn stated_by<'a>(
    c: &Cluster,
    j: u32,
    maker: Party,
    i: u32,
    start: u16,
    digest: [u8; 32],
    rest: &'a History,
) -> Option<OwnStated<'a>>
    ensures { option_map seen result ≡ list_stated c.now j (TrimmedAbort maker i start digest rest.now) }
{
    match maker {
        Party::Replica(by) if i == j && by < c.replicas() => Some(OwnStated {
            by,
            start,
            digest,
            rest,
        }),
        _ => None,
    }
}

/// The list that an ABORT of instance `j` states.
fn stated_in<'a>(c: &Cluster, j: u32, content: &'a Content) -> Option<OwnStated<'a>>
    requires { IsStopContent content.now }
    ensures seen { option_map seen result ≡ list_stated c.now j content.now }
    ensures fits { IfSome result (λ v. IsSpellable (record { start = v.start; digest = v.digest; rest = v.rest.now })) }
{
    match content {
        Content::Abort {
            maker,
            instance,
            history,
        } => stated_by(c, j, *maker, *instance, 0, [0; 32], history),
        Content::TrimmedAbort {
            maker,
            instance,
            start,
            digest,
            rest,
        } => stated_by(c, j, *maker, *instance, *start, *digest, rest),
        _ => None,
    }
}

/// Who states lists. None if some ABORT is no such ABORT, or if they are over five.
fn voters(c: &Cluster, j: u32, aborts: &[Signed]) -> Option<ArrayVec<u8, 5>>
    requires { All (IsSigned IsStopContent) aborts.now }
    ensures some { IfSome result (λ by. option_map (map (λ v. v.by)) (all_stated c.now j aborts.now) ≡ Some by.items) }
    ensures none { IsNone result → are_valid c.now.f (all_stated c.now j aborts.now) ≡ false }
{
    let mut by = ArrayVec::new();
    'aborts: for abort in aborts {
        let Some(stated) = stated_in(c, j, &abort.content) else {
            return None;
        };
        if by.len() == MOST {
            return None;
        }
        by.push(stated.by);
    }
    Some(by)
}

/// Whether these are the lists of 2f + 1 different replicas. Nothing is allocated.
fn are_valid(c: &Cluster, j: u32, aborts: &[Signed]) -> bool
    requires { All (IsSigned IsStopContent) aborts.now }
    ensures { result ≡ are_valid c.now.f (all_stated c.now j aborts.now) }
{
    match voters(c, j, aborts) {
        Some(by) => are_enough(c.f, by.as_slice()),
        None => false,
    }
}

/// The lists, in chunks of their own. None if some ABORT states none.
fn lists_in(
    alloc: Global,
    c: &Cluster,
    j: u32,
    aborts: &[Signed],
) -> Result<Option<Vec<Trimmed>>, OutOfMemory>
    requires { All (IsSigned IsStopContent) aborts.now }
    ensures { IfOk result (λ o. option_map (λ v. lists_in v.items) o ≡ option_map lists_of (all_stated c.now j aborts.now)) }
{
    let mut lists = Vec::new(alloc);
    'aborts: for abort in aborts {
        let Some(stated) = stated_in(c, j, &abort.content) else {
            return Ok(None);
        };
        let list = trimmed_of(alloc, stated.start, &stated.digest, stated.rest)?;
        lists.push(list)?;
    }
    Ok(Some(lists))
}

/// The list on which a certificate of instance `j` agrees. None if it isn't valid; then nothing is allocated. None too if no point
/// has f + 1 holders.
pub fn list_of_own(
    alloc: Global,
    c: &Cluster,
    j: u32,
    aborts: &[Signed],
) -> Result<Option<Trimmed>, OutOfMemory>
    requires instance { 1 ≤ j }
    requires formed { All (IsSigned IsStopContent) aborts.now }
    ensures { IfOk result (λ o. option_map (λ t. t.list) o ≡ list_of c.now j aborts.now) }
{
    if !makes_checkpoints(c.kind(j)) || !are_valid(c, j, aborts) {
        return Ok(None);
    }
    match lists_in(alloc, c, j, aborts)? {
        Some(lists) => agreed_in(alloc, lists.as_slice(), usize::from(c.f) + 1),
        None => Ok(None),
    }
}
