//! Histories that are kept once.

ghost use Rattle.std.specs.Prelude.{◌≡◌, IfSome};

use ab_abs::Seen;
use ab_hist::History;
use ab_run::Noted;
use std::alloc::Global;

/// In how many of the last observations an equal history is looked for. In an instance each client
/// makes some three observations, and each replica two.
const LOOKED_IN: usize = 64;

/// A copy of the history of an observation, or of the entries that its list has not forgotten, if it has
/// this one.
fn copy_from(alloc: Global, what: &Seen, h: &History) -> Option<History>
    ensures { IfSome result (λ copy. copy ≡ h.now) }
{
    let earlier = match what {
        Seen::Init { i: _, r: _, h } => h,
        Seen::Cert { i: _, p: _, h } => h,
        Seen::TrimmedInit {
            i: _,
            r: _,
            start: _,
            digest: _,
            rest,
        } => rest,
        Seen::TrimmedCert {
            i: _,
            p: _,
            start: _,
            digest: _,
            rest,
        } => rest,
        Seen::Invoked { .. } => return None,
        Seen::Committed { .. } => return None,
    };
    if earlier.is_equal(h) {
        earlier.copy(alloc).ok()
    } else {
        None
    }
}

/// A copy of an equal history of the last observations, if one has it.
fn copy_of(alloc: Global, noted: &[Noted], h: &History) -> Option<History>
    ensures { IfSome result (λ copy. copy ≡ h.now) }
{
    let first = noted.len().saturating_sub(LOOKED_IN);
    'looking: for n in (first..noted.len()).rev() {
        if let Some(copy) = copy_from(alloc, &noted[n].what, h) {
            return Some(copy);
        }
    }
    None
}

/// The history shares its entries with one of the last observations, if one has the same.
pub(crate) fn share(alloc: Global, noted: &[Noted], h: &mut History)
    ensures { h.new ≡ h.old }
{
    if let Some(copy) = copy_of(alloc, noted, h) {
        *h = copy;
    }
}

/// The history of an observation does so, if it has one.
pub(crate) fn share_seen(alloc: Global, noted: &[Noted], what: &mut Seen)
    ensures { what.new ≡ what.old }
{
    match what {
        Seen::Init { i: _, r: _, h } => share(alloc, noted, h),
        Seen::Cert { i: _, p: _, h } => share(alloc, noted, h),
        Seen::TrimmedInit {
            i: _,
            r: _,
            start: _,
            digest: _,
            rest,
        } => share(alloc, noted, rest),
        Seen::TrimmedCert {
            i: _,
            p: _,
            start: _,
            digest: _,
            rest,
        } => share(alloc, noted, rest),
        Seen::Invoked { .. } => {}
        Seen::Committed { .. } => {}
    }
}
