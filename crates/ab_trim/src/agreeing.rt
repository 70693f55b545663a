//! The list on which enough lists agree.

ghost use Rattle.std.specs.Prelude.{◌≡◌, ℕ, ◌<◌, ◌≤◌, List, IfOk, IfSome, IfNone};
ghost use Rattle.std.specs.Option.{option_map};
ghost use Rattle.ab_trim.specs.Points.{IsLastPoint, IsLastOf, IsAgreedList, IsWithin, point_holders, later_of, lists_in, fewer as fewer_of, least_holder as least_of};
ghost use Rattle.ab_trim.specs.Logs.{no_lasts};

use crate::trimmed::Trimmed;
use ab_num::OutOfMemory;
use std::alloc::Global;

/// How many of the lists hold the point.
fn holders(lists: &[Trimmed], n: usize, digest: &[u8; 32]) -> usize
    ensures { result ≡ point_holders (lists_in lists.now) n digest.now }
{
    lists.iter().filter(|l| l.holds(n, digest)).count()
}

/// The greatest number of a point of `list` that at least `q` of the lists hold.
fn last_of(list: &Trimmed, lists: &[Trimmed], q: usize) -> Option<usize>
    ensures { IsLastOf q (lists_in lists.now) list.now.list result }
{
    for k in 0..list.len() - list.start() + 1 {
        let n = list.len() - k;
        if holders(lists, n, &list.digest_at(n)) >= q {
            return Some(n);
        }
    }
    None
}

/// The point of the greatest number that at least `q` of the lists hold.
fn last_point(lists: &[Trimmed], q: usize) -> Option<(usize, [u8; 32])>
    requires { 1 ≤ q }
    ensures some { IfSome result (λ p. IsLastPoint q (lists_in lists.now) p.0 p.1) }
    ensures none { IfNone result ((n : ℕ) (d : List ℕ) → point_holders (lists_in lists.now) n d < q) }
{
    let mut best = None;
    for list in lists {
        best = later(best, list, last_of(list, lists, q));
    }
    best
}

/// The one of the two points that has the greater number: the given one, or the list's at place `n`.
fn later(
    best: Option<(usize, [u8; 32])>,
    list: &Trimmed,
    n: Option<usize>,
) -> Option<(usize, [u8; 32])>
    requires { IfSome n (λ k. IsWithin list.now.list k) }
    ensures { result ≡ later_of best list.now.list n }
{
    let Some(n) = n else {
        return best;
    };
    match best {
        Some((k, _)) if n <= k => best,
        _ => Some((n, list.digest_at(n))),
    }
}

/// The list, if it holds the point and hasn't forgotten more than the other.
fn fewer<'a>(
    n: usize,
    digest: &[u8; 32],
    list: &'a Trimmed,
    other: Option<&'a Trimmed>,
) -> Option<&'a Trimmed>
    ensures { option_map (λ t. t.now.list) result ≡ fewer_of n digest.now list.now.list (option_map (λ t. t.now.list) other.entry) }
{
    if !list.holds(n, digest) {
        return other;
    }
    match other {
        Some(u) if u.start() < list.start() => other,
        _ => Some(list),
    }
}

/// The holder of the point that has forgotten the least, the first of these.
fn least_holder<'a>(lists: &'a [Trimmed], n: usize, digest: &[u8; 32]) -> Option<&'a Trimmed>
    ensures { option_map (λ t. t.now.list) result ≡ least_of n digest.now (lists_in lists.now) }
{
    let mut best: Option<&Trimmed> = None;
    for k in 0..lists.len() {
        best = fewer(n, digest, &lists[lists.len() - 1 - k], best);
    }
    best
}

/// The list on which at least `q` of these lists agree: of the points that `q` of them hold the one of greatest number, and of
/// its holders the one that has forgotten least, the first at a tie, up to there. None if no point has so many holders. It
/// knows none of the requests that it has forgotten.
pub fn agreed_list(
    alloc: Global,
    lists: &[Trimmed],
    q: usize,
) -> Result<Option<Trimmed>, OutOfMemory>
    requires { 1 ≤ q }
    ensures some { IfOk result (λ r. IfSome r (λ t. IsAgreedList q (lists_in lists.now) t.list)) }
    ensures unknown { IfOk result (λ r. IfSome r (λ t. t.lasts ≡ no_lasts)) }
    ensures none { IfOk result (λ r. IfNone r ((n : ℕ) (d : List ℕ) → point_holders (lists_in lists.now) n d < q)) }
{
    let Some(point) = last_point(lists, q) else {
        return Ok(None);
    };
    let digest = point.1;
    let Some(holder) = least_holder(lists, point.0, &digest) else {
        unreachable!()
    };
    Ok(Some(holder.front(alloc, point.0)?))
}
