//! Lists, each beside how far it agrees with those before it, and the walk that finds what enough of them share.

ghost use Rattle.std.specs.Prelude.{◌≡◌, ◌<◌, ◌≤◌, length, map, drop, fold, max};
ghost use Rattle.ab_content.specs.Views.{history};
ghost use Rattle.ab_extract.specs.Tables.{IsTable, list_at, lists_of};
ghost use Rattle.ab_extract.specs.Walks.{IsFront, common_of};

use crate::common::{common, common_view, reached};
use ab_hist::History;
use ab_wire::HistoryRef;
use arrayvec::ArrayVec;

/// A list, and how far it agrees with each of those that were added before it.
pub(crate) struct Branch {
    pub list: History,
    pub shared: ArrayVec<usize, 7>,
}

impl Drop for Branch {
    fn drop(self) {
        let Branch { list: _, shared: _ } = self;
    }
}

/// How far a list agrees with each of these.
pub(crate) fn shared_with(branches: &[Branch], h: &History) -> ArrayVec<usize, 7>
    requires { length branches.now ≤ 7 }
    ensures { result.items ≡ map (λ b. common_of h.now b.list) branches.now }
{
    let mut made = ArrayVec::new();
    for b in branches {
        made.push(common(h, &b.list));
    }
    made
}

/// How far a list in received bytes agrees with each of these.
pub(crate) fn shared_with_view(branches: &[Branch], h: &HistoryRef<'_>) -> ArrayVec<usize, 7>
    requires { length branches.now ≤ 7 }
    ensures { result.items ≡ map (λ b. common_of (history h.now) b.list) branches.now }
{
    let mut made = ArrayVec::new();
    for b in branches {
        made.push(common_view(h, &b.list));
    }
    made
}

/// The greatest of these numbers, 0 where there are none.
pub(crate) fn greatest(numbers: &[usize]) -> usize
    ensures { result ≡ fold max 0 numbers.now }
{
    let mut most = 0;
    for n in numbers {
        most = most.max(*n);
    }
    most
}

/// The first list that agrees as far as any, where `shared` says how far each does.
pub(crate) fn nearest<'a>(branches: &'a [Branch], shared: &[usize]) -> Option<&'a History>
    requires { length shared.now ≡ length branches.now }
{
    let most = greatest(shared);
    for k in 0..shared.len() {
        if shared[k] == most {
            return Some(&branches[k].list);
        }
    }
    None
}

/// How far the list at place `i` agrees with itself and with each of those after it.
fn column(branches: &[Branch], i: usize) -> ArrayVec<usize, 7>
    requires table { IsTable branches.now }
    requires few { length branches.now ≤ 7 }
    requires within { i < length branches.now }
    ensures { result.items ≡ map (λ b. common_of (list_at branches.now i) b.list) (drop i branches.now) }
{
    let mut made = ArrayVec::new();
    made.push(branches[i].list.len());
    for j in i + 1..branches.len() {
        made.push(branches[j].shared.as_slice()[i]);
    }
    made
}

/// Which of the lists begins with the longest history that `q` of them begin with, and how long
/// that is. No requests are compared: a history's first holder is looked up beside those that come after it.
pub(crate) fn deepest(branches: &[Branch], q: usize) -> (usize, usize)
    requires table { IsTable branches.now }
    requires few { length branches.now ≤ 7 }
    requires places { (1 ≤ q) × (q ≤ length branches.now) }
    ensures { IsFront q (lists_of branches.now) result.0 result.1 }
{
    let mut best = 0;
    let mut most = 0;
    for i in 0..branches.len() - q + 1 {
        let places = column(branches, i);
        let n = reached(places.as_slice(), q, branches[i].list.len());
        if n > most {
            best = i;
            most = n;
        }
    }
    (best, most)
}
