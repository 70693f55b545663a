//! What a replica answers by itself.

ghost use Rattle.std.specs.Prelude.{◌≡◌, Some, IfOk};
ghost use Rattle.std.specs.Option.{option_map};
ghost use Rattle.ab_run.specs.Replicas.{abort_to, cert_to};

use ab_msg::{AbortCert, Copied, Msg, Out, Outs, Signed};
use ab_num::{OutOfMemory, Party};
use std::alloc::Global;

/// An ABORT to a client.
pub(crate) fn abort_to(alloc: Global, client: u16, abort: &Signed) -> Result<Outs, OutOfMemory>
    ensures { IfOk result (λ outs. outs ≡ abort_to client (Some abort.now)) }
{
    let abort = abort.copy(alloc)?;
    Outs::one(
        alloc,
        Out {
            to: Party::Client(client),
            msg: Msg::Abort { abort },
        },
    )
}

/// The certificate to a client, if there is one.
pub(crate) fn cert_to(
    alloc: Global,
    client: u16,
    cert: Option<&AbortCert>,
) -> Result<Outs, OutOfMemory>
    ensures { IfOk result (λ outs. outs ≡ cert_to client (option_map (λ c. c.now) cert.entry)) }
{
    let Some(cert) = cert else {
        return Ok(Outs::new(alloc));
    };
    let cert = cert.copy(alloc)?;
    Outs::one(
        alloc,
        Out {
            to: Party::Client(client),
            msg: Msg::Init { cert },
        },
    )
}
