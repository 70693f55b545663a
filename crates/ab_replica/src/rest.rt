//! What stands in a log behind its first entries.

ghost use Rattle.std.specs.Prelude.{◌≡◌, ◌≤◌, [], ◌∷◌, ◌++◌, IfOk, OnOk, drop, length};
ghost use Rattle.ab_hist.specs.Histories.{CanAdd};

use ab_hist::{History, PushFault, Request};
use ab_num::OutOfMemory;
use std::alloc::Global;

/// Adds an entry that may come next.
fn push(alloc: Global, history: &mut History, m: Request) -> Result<(), OutOfMemory>
    requires { CanAdd history.old m }
    ensures { OnOk result (history.new ≡ history.old ++ m ∷ []) }
{
    match history.push(alloc, m) {
        Ok(()) => Ok(()),
        Err(PushFault::OutOfMemory) => Err(OutOfMemory),
        Err(_) => unreachable!(),
    }
}

/// The entries of a log behind its first `n`.
pub(crate) fn rest_of(alloc: Global, log: &History, n: usize) -> Result<History, OutOfMemory>
    requires { n ≤ length log.now }
    ensures { IfOk result (λ h. h ≡ drop n log.now) }
{
    let mut rest = History::new(alloc);
    'entries: for k in 0..log.len() - n {
        push(alloc, &mut rest, log.at(n + k + 1).copy())?;
    }
    Ok(rest)
}
