//! The last requests of clients, by the clients' numbers.

ghost use Rattle.std.specs.Prelude.{◌≡◌, ◌+◌, ◌<◌, ◌≤◌, All, length, take, IfOk};
ghost use Rattle.ab_trim.specs.Known.{place_of_last as place_by_last, follows_last as follows_by_last};
ghost use Rattle.ab_trim.specs.Logs.{last_at, noted, no_lasts as without, padded};

use crate::rest::Rest;
use ab_hist::Request;
use ab_num::OutOfMemory;
use std::alloc::{AllocError, Global};

/// How many clients there may be.
const CLIENTS: usize = 16;

/// A place for each client, and no request.
pub(crate) fn no_lasts(alloc: Global) -> Result<Vec<Option<(usize, Request)>>, AllocError>
    ensures { IfOk result (λ v. v.items ≡ without) }
{
    let mut lasts = Vec::with_capacity(alloc, CLIENTS)?;
    'clients: for _ in 0..CLIENTS {
        lasts.push(None)?;
    }
    Ok(lasts)
}

/// The place of `m`, if it is the last of its client.
pub(crate) fn place_of_last(lasts: &[Option<(usize, Request)>], m: &Request) -> Option<usize>
    ensures { result ≡ place_by_last (last_at lasts.now m.now.client) m.now }
{
    let client = usize::from(m.client);
    if client >= lasts.len() {
        return None;
    }
    match &lasts[client] {
        Some((place, last)) if last == m => Some(*place),
        _ => None,
    }
}

/// Whether the stamp of `m` is above that of the last of its client.
pub(crate) fn follows_last(lasts: &[Option<(usize, Request)>], m: &Request) -> bool
    ensures { result ≡ follows_by_last (last_at lasts.now m.now.client) m.now }
{
    let client = usize::from(m.client);
    if client >= lasts.len() {
        return true;
    }
    match &lasts[client] {
        Some((_, last)) => last.stamp < m.stamp,
        None => true,
    }
}

/// Notes the first `count` entries behind place `start` as the last of their clients.
pub(crate) fn note_all(
    lasts: &mut Vec<Option<(usize, Request)>>,
    rest: &Rest,
    start: usize,
    count: usize,
)
    requires within { count ≤ length rest.now.requests }
    requires places { start + count ≤ 65535 }
    requires clients { All (λ m. m.client < length lasts.old.items) rest.now.requests }
    ensures { lasts.new.items ≡ noted start (take count rest.now.requests) lasts.old.items }
{
    'entries: for k in 0..count {
        let m = rest.at(k + 1);
        lasts[usize::from(m.client)] = Some((start + k + 1, m.copy()));
    }
}

/// The same requests and places.
pub(crate) fn copy_lasts(
    alloc: Global,
    lasts: &[Option<(usize, Request)>],
) -> Result<Vec<Option<(usize, Request)>>, OutOfMemory>
    ensures { IfOk result (λ v. v.items ≡ lasts.now) }
{
    let mut copies = Vec::with_capacity(alloc, lasts.len())?;
    'lasts: for last in lasts {
        let copy = match last {
            Some((place, m)) => Some((*place, m.copy())),
            None => None,
        };
        copies.push(copy)?;
    }
    Ok(copies)
}

/// The same requests and places, with a place for each client.
pub(crate) fn all_lasts(
    alloc: Global,
    lasts: &[Option<(usize, Request)>],
) -> Result<Vec<Option<(usize, Request)>>, OutOfMemory>
    ensures { IfOk result (λ v. v.items ≡ padded lasts.now) }
{
    if lasts.len() == 0 {
        Ok(no_lasts(alloc)?)
    } else {
        copy_lasts(alloc, lasts)
    }
}
