//! A history that is known to begin the result, as far as enough lists go on from it.

ghost use Rattle.std.specs.Prelude.{◌≡◌, ◌+◌, ◌<◌, ◌≤◌, length, map, take, get_or, [], IfOk};
ghost use Rattle.std.specs.List.{filter, starts_with};
ghost use Rattle.ab_hist.specs.Requests.{request_eq};
ghost use Rattle.ab_abs.specs.Rules.{IsExtension};

use crate::walk::extract_of;
use ab_hist::History;
use ab_num::OutOfMemory;
use std::alloc::{AllocError, Global};

/// Whether a list begins with these entries.
fn begins(list: &History, front: &History) -> bool
    ensures { result ≡ starts_with request_eq list.now front.now }
{
    front.is_prefix_of(list)
}

/// Those of the lists that begin with the given entries.
fn begun<'a>(
    alloc: Global,
    lists: &[&'a History],
    front: &History,
) -> Result<Vec<&'a History>, AllocError>
    ensures { IfOk result (λ v. v.items ≡ filter (λ l. starts_with request_eq l.now front.now) lists.now) }
{
    let mut made = Vec::with_capacity(alloc, lists.len())?;
    for l in lists {
        if begins(l, front) {
            made.push(*l)?;
        }
    }
    Ok(made)
}

/// The longest history that begins with the first `n` entries of the list at place `at`, and with
/// which `q` of the lists begin. It is these entries where there is none.
pub fn extension(
    alloc: Global,
    lists: &[&History],
    q: usize,
    at: usize,
    n: usize,
) -> Result<History, OutOfMemory>
    requires half { length lists.now < q + q }
    requires some { 1 ≤ q }
    requires at { at < length lists.now }
    requires front { n ≤ length (get_or (map (λ l. l.now) lists.now) at []) }
    ensures { IfOk result (λ h. IsExtension q (map (λ l. l.now) lists.now) (take n (get_or (map (λ l. l.now) lists.now) at [])) h) }
{
    let mut front = lists[at].copy(alloc)?;
    front.cut(n);
    let begun = begun(alloc, lists, &front)?;
    if begun.len() < q {
        return Ok(front);
    }
    extract_of(alloc, &begun, q)
}
