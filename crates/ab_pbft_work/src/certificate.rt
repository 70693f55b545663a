//! The base that a certificate gives.

ghost use Rattle.std.specs.Prelude.{◌≡◌, All, IfOk};
ghost use Rattle.ab_msg.specs.Certs.{IsSigned};
ghost use Rattle.ab_msg.specs.Contents.{IsStopContent};
ghost use Rattle.ab_wire.specs.Views.{aborts};
ghost use Rattle.ab_order.specs.Readings.{base_offered};

use ab_extract::history_view;
use ab_form::ListRef;
use ab_hist::History;
use ab_num::{Cluster, OutOfMemory};
use ab_wire::SignedRef;
use std::alloc::Global;

/// The base that a certificate gives in instance `i`. In instance 1 there is no certificate, and the base is empty. Of a
/// certificate that gives none nothing is copied.
pub(crate) fn base_offered<'a>(
    alloc: Global,
    c: &Cluster,
    i: u32,
    cert: &ListRef<'a, SignedRef<'a>>,
) -> Result<Option<History>, OutOfMemory>
    requires { All (IsSigned IsStopContent) (aborts cert.now) }
    ensures { IfOk result (λ o. o ≡ base_offered c.now i (aborts cert.now)) }
{
    if i > 1 {
        return history_view(alloc, c, i - 1, cert, None);
    }
    if i == 1 && cert.len() == 0 {
        Ok(Some(History::new(alloc)))
    } else {
        Ok(None)
    }
}
