//! The logs that ABORTs in received bytes state.

ghost use Rattle.std.specs.Prelude.{◌≡◌, ◌≤◌, length, map, IfOk, IfSome};
ghost use Rattle.std.specs.Cmp.Lexicographic.{pointwise};
ghost use Rattle.std.specs.Option.{option_map};
ghost use Rattle.ab_hist.specs.Requests.{request_eq};
ghost use Rattle.ab_msg.specs.Contents.{IsStopContent};
ghost use Rattle.ab_msg.specs.Fields.{IsWritten};
ghost use Rattle.ab_content.specs.Views.{content as shown, history, request};
ghost use Rattle.ab_wire.specs.Views.{aborts};
ghost use Rattle.ab_abs.specs.Certificates.{history_eq};
ghost use Rattle.ab_extract.specs.Certs.{log_in};
ghost use Rattle.ab_extract.specs.Causes.{one_log};

use crate::heads::again;
use crate::tree::Tree;
use ab_form::ListRef;
use ab_hist::History;
use ab_num::OutOfMemory;
use ab_wire::{ContentRef, HistoryRef, RequestRef, SignedRef};
use std::alloc::Global;

/// Whether the two are equal.
fn is_request(a: &RequestRef<'_>, b: &RequestRef<'_>) -> bool
    ensures { result ≡ request_eq (request a.now) (request b.now) }
{
    a.client == b.client && a.stamp == b.stamp && *a.command == *b.command
}

/// Whether the two have the same entries.
fn are_equal<'a, 'b>(a: &HistoryRef<'a>, b: &HistoryRef<'b>) -> bool
    ensures { result ≡ pointwise request_eq (history a.now) (history b.now) }
{
    let mut others = b.entries();
    'entries: for m in a.entries() {
        let Some(other) = others.next() else {
            return false;
        };
        if !is_request(&m, &other) {
            return false;
        }
    }
    others.next().is_none()
}

/// Whether the two are equal.
fn is_same<'a, 'b>(a: &HistoryRef<'a>, b: &HistoryRef<'b>) -> bool
    ensures { result ≡ history_eq (history a.now) (history b.now) }
{
    are_equal(a, b)
}

/// The log that an ABORT states; of a trimmed one what is not trimmed.
fn log_of<'a>(s: &SignedRef<'a>) -> HistoryRef<'a>
    requires { IsStopContent (shown s.now.content) }
    ensures log { history result ≡ log_in (shown s.now.content) }
    ensures written { IsWritten (history result) }
{
    match s.content {
        ContentRef::Abort { history, .. } => history,
        ContentRef::AbortZ { history, .. } => history,
        ContentRef::TrimmedAbort { rest, .. } => rest,
        _ => unreachable!(),
    }
}

/// The log that all state, if they state one.
pub(crate) fn one_log<'a>(cert: &ListRef<'a, SignedRef<'a>>) -> Option<HistoryRef<'a>>
    ensures log { option_map history result ≡ one_log (aborts cert.now) }
    ensures written { IfSome result (λ h. IsWritten (history h)) }
{
    let mut rest = again(cert);
    let Some(first) = rest.next() else {
        return None;
    };
    let log = log_of(&first);
    'others: for other in rest {
        if !is_same(&log_of(&other), &log) {
            return None;
        }
    }
    Some(log)
}

/// The logs that the ABORTs state, in a tree. What the first has in common with `like` it shares with it.
pub(crate) fn tree_of<'a>(
    alloc: Global,
    cert: &ListRef<'a, SignedRef<'a>>,
    like: Option<&History>,
) -> Result<Tree, OutOfMemory>
    requires { length (aborts cert.now) ≤ 7 }
    ensures { IfOk result (λ t. t ≡ map (λ s. log_in s.content) (aborts cert.now)) }
{
    let mut tree = Tree::new(alloc);
    'aborts: for abort in again(cert) {
        let log = log_of(&abort);
        tree.add_view_like(alloc, &log, like)?;
    }
    Ok(tree)
}
