//! A list in received bytes, or one that is kept in parts, as a list of its own.

ghost use Rattle.std.specs.Prelude.{◌≡◌, ◌<◌, true, IfOk, OnOk};
ghost use Rattle.ab_content.specs.Views.{trimmed};
ghost use Rattle.ab_msg.specs.Fields.{IsSpellable};
ghost use Rattle.ab_trim.specs.Known.{can_push_by};
ghost use Rattle.ab_trim.specs.Logs.{log_of, push_log, no_lasts as without};

use crate::trimmed::Trimmed;
use ab_content::TrimmedRef;
use ab_hist::{History, PushFault, Request};
use ab_num::OutOfMemory;
use std::alloc::Global;

/// Adds an entry that may come next.
fn add(alloc: Global, list: &mut Trimmed, m: Request) -> Result<(), OutOfMemory>
    requires may { can_push_by (log_of list.old) m ≡ true }
    requires client { m.client < 16 }
    ensures { OnOk result (list.new ≡ push_log list.old m) }
{
    match list.push(alloc, m) {
        Ok(()) => Ok(()),
        Err(PushFault::OutOfMemory) => Err(OutOfMemory),
        Err(_) => unreachable!(),
    }
}

/// The same list, with entries of its own. It knows none of the requests that are forgotten.
pub fn own_trimmed(alloc: Global, list: &TrimmedRef<'_>) -> Result<Trimmed, OutOfMemory>
    requires { IsSpellable (trimmed list.now) }
    ensures { IfOk result (λ t. t ≡ record { list = trimmed list.now; lasts = without }) }
{
    let mut own = Trimmed::begin(alloc, usize::from(list.start), list.digest);
    'entries: for m in list.rest.entries() {
        add(alloc, &mut own, m.own())?;
    }
    Ok(own)
}

/// The list that has forgotten its first `start` entries, which have that digest, and goes on with the others. It knows none of the
/// requests that are forgotten.
pub fn trimmed_of(
    alloc: Global,
    start: u16,
    digest: &[u8; 32],
    rest: &History,
) -> Result<Trimmed, OutOfMemory>
    requires { IsSpellable (record { start = start; digest = digest.now; rest = rest.now }) }
    ensures { IfOk result (λ t. t ≡ record { list = record { start = start; digest = digest.now; rest = rest.now }; lasts = without }) }
{
    let mut own = Trimmed::begin(alloc, usize::from(start), *digest);
    'entries: for n in 0..rest.len() {
        add(alloc, &mut own, rest.at(n + 1).copy())?;
    }
    Ok(own)
}
