//! What a client sends.

ghost use Rattle.std.specs.Prelude.{◌≡◌, ◌≤◌, ◌+◌, ◌*◌, ◌++◌, ◌∷◌, [], Some, IfOk, OnOk};
ghost use Rattle.ab_run.specs.Clients.{cert_out, request_out, to_all};
ghost use Rattle.ab_client.specs.Clients.{alone, panic_msg, request_msg};

use ab_hist::Request;
use ab_msg::{AbortCert, Content, Msg, NO_TAG, Out, Outs, Tags, Zcert};
use ab_num::{Cluster, Kind, OutOfMemory, Party};
use std::alloc::Global;

/// A request in an instance.
fn request_msg(instance: u32, request: &Request) -> Msg
    ensures { result ≡ request_msg instance request.now }
{
    let content = Content::Req {
        maker: Party::Client(request.client),
        instance,
        request: request.copy(),
    };
    Msg::Req {
        content,
        tags: Tags::new(),
    }
}

/// What asks the replicas to stop an instance.
#[tactic(auto, unfolding(crate::specs::Clients::panic_msg))]
fn panic_msg(instance: u32, me: u16) -> Msg
    ensures { result ≡ panic_msg instance me }
{
    let content = Content::Panic {
        maker: Party::Client(me),
        instance,
    };
    Msg::Panic {
        content,
        tag: NO_TAG,
    }
}

/// Sends a message to a replica.
fn send_to(alloc: Global, outs: &mut Outs, replica: u8, msg: Msg) -> Result<(), OutOfMemory>
    ensures { OnOk result (outs.new ≡ outs.old ++ record { to = Party.Replica replica; msg = msg } ∷ []) }
{
    let to = Party::Replica(replica);
    outs.push(alloc, Out { to, msg })
}

/// Sends a request in an instance to the first replicas.
fn send_to_first(
    alloc: Global,
    outs: &mut Outs,
    replicas: u8,
    instance: u32,
    request: &Request,
) -> Result<(), OutOfMemory>
    ensures { OnOk result (outs.new ≡ outs.old ++ to_all replicas (request_msg instance request.now)) }
{
    for r in 0..replicas {
        send_to(alloc, outs, r, request_msg(instance, request))?;
    }
    Ok(())
}

/// Sends a request in an instance to those replicas that take it from a client.
fn send_request(
    alloc: Global,
    outs: &mut Outs,
    cluster: &Cluster,
    instance: u32,
    request: &Request,
) -> Result<(), OutOfMemory>
    requires { 1 ≤ instance }
    ensures { OnOk result (outs.new ≡ outs.old ++ request_out (alone cluster.now) instance request.now.client request.now) }
{
    let replica = match cluster.kind(instance) {
        Kind::Quorum | Kind::Backup => {
            return send_to_first(alloc, outs, cluster.replicas(), instance, request);
        }
        Kind::ZLight | Kind::ZCert => cluster.primary(instance),
        Kind::Chain => cluster.at_position(instance, 1),
    };
    send_to(alloc, outs, replica, request_msg(instance, request))
}

/// Sends a certificate to all replicas.
fn send_cert(
    alloc: Global,
    outs: &mut Outs,
    cluster: &Cluster,
    cert: &AbortCert,
) -> Result<(), OutOfMemory>
    ensures { OnOk result (outs.new ≡ outs.old ++ cert_out (alone cluster.now) (Some cert.now)) }
{
    for r in 0..cluster.replicas() {
        let cert = cert.copy(alloc)?;
        send_to(alloc, outs, r, Msg::Init { cert })?;
    }
    Ok(())
}

/// Sends the certificate by which a client entered its instance, if there is one, to all replicas.
fn send_entry(
    alloc: Global,
    outs: &mut Outs,
    cluster: &Cluster,
    cert: &Option<AbortCert>,
) -> Result<(), OutOfMemory>
    ensures { OnOk result (outs.new ≡ outs.old ++ cert_out (alone cluster.now) cert.now) }
{
    match cert {
        Some(cert) => send_cert(alloc, outs, cluster, cert),
        None => Ok(()),
    }
}

/// Asks all replicas to stop an instance.
fn send_panic(
    alloc: Global,
    outs: &mut Outs,
    cluster: &Cluster,
    instance: u32,
    me: u16,
) -> Result<(), OutOfMemory>
    ensures { OnOk result (outs.new ≡ outs.old ++ to_all (3 * cluster.now.f + 1) (panic_msg instance me)) }
{
    for r in 0..cluster.replicas() {
        send_to(alloc, outs, r, panic_msg(instance, me))?;
    }
    Ok(())
}

/// What a client sends with a new request.
pub(crate) fn requests(
    alloc: Global,
    cluster: &Cluster,
    instance: u32,
    request: &Request,
) -> Result<Outs, OutOfMemory>
    requires { 1 ≤ instance }
    ensures { IfOk result (λ outs. outs ≡ request_out (alone cluster.now) instance request.now.client request.now) }
{
    let mut outs = Outs::new(alloc);
    send_request(alloc, &mut outs, cluster, instance, request)?;
    Ok(outs)
}

/// What a client sends as it enters an instance by a certificate.
pub(crate) fn entering(
    alloc: Global,
    cluster: &Cluster,
    instance: u32,
    cert: &AbortCert,
    request: &Request,
) -> Result<Outs, OutOfMemory>
    requires { 1 ≤ instance }
    ensures { IfOk result (λ outs. outs ≡ cert_out (alone cluster.now) (Some cert.now) ++ request_out (alone cluster.now) instance request.now.client request.now) }
{
    let mut outs = Outs::new(alloc);
    send_cert(alloc, &mut outs, cluster, cert)?;
    send_request(alloc, &mut outs, cluster, instance, request)?;
    Ok(outs)
}

/// What a client sends that asks for its request once more.
pub(crate) fn asking_again(
    alloc: Global,
    cluster: &Cluster,
    instance: u32,
    cert: &Option<AbortCert>,
    request: &Request,
) -> Result<Outs, OutOfMemory>
    requires { 1 ≤ instance }
    ensures { IfOk result (λ outs. outs ≡ cert_out (alone cluster.now) cert.now ++ request_out (alone cluster.now) instance request.now.client request.now) }
{
    let mut outs = Outs::new(alloc);
    send_entry(alloc, &mut outs, cluster, cert)?;
    send_request(alloc, &mut outs, cluster, instance, request)?;
    Ok(outs)
}

/// What a client sends that asks the replicas to stop.
pub(crate) fn panicking(
    alloc: Global,
    cluster: &Cluster,
    instance: u32,
    me: u16,
    cert: &Option<AbortCert>,
) -> Result<Outs, OutOfMemory>
    ensures { IfOk result (λ outs. outs ≡ cert_out (alone cluster.now) cert.now ++ to_all (3 * cluster.now.f + 1) (panic_msg instance me)) }
{
    let mut all = Outs::new(alloc);
    send_entry(alloc, &mut all, cluster, cert)?;
    send_panic(alloc, &mut all, cluster, instance, me)?;
    Ok(all)
}

/// What a client sends that shows a certificate of answers to all replicas.
pub(crate) fn certifying(
    alloc: Global,
    cluster: &Cluster,
    instance: u32,
    zcert: &Zcert,
) -> Result<Outs, OutOfMemory>
    ensures { IfOk result (λ outs. outs ≡ to_all (3 * cluster.now.f + 1) (Msg.Cert instance zcert.now)) }
{
    let mut outs = Outs::new(alloc);
    for r in 0..cluster.replicas() {
        let zcert = zcert.copy(alloc)?;
        send_to(alloc, &mut outs, r, Msg::Cert { instance, zcert })?;
    }
    Ok(outs)
}
