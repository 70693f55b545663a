//! Certificates and logs in received bytes: the rows of those that are owned, once more.

ghost use Rattle.std.specs.Prelude.{◌≡◌, ◌≤◌, length, IsTrue, IfOk};
ghost use Rattle.ab_wire.specs.Views.{aborts};
ghost use Rattle.ab_extract.specs.Certs.{AreAborts};

use ab_extract::{CertFault, Tree, check_view};
use ab_form::{ListRef, Part};
use ab_hist::{History, Request};
use ab_msg::Content;
use ab_num::{Cluster, OutOfMemory, Party, Plan};
use ab_wire::{ContentRef, SignedRef};
use ab_write::content_bytes;
use arrayvec::ArrayVec;
use std::alloc::Global;

/// How many bytes a signature has.
const SIG: u16 = 2348;

/// Adds so many requests of a client, each with a command of one byte.
fn push_many(alloc: Global, log: &mut History, client: u16, count: u64) {
    for k in 0..count {
        let mut command = ArrayVec::new();
        command.push(1);
        let stamp = k.wrapping_add(1);
        let _ = log.push(
            alloc,
            Request {
                client,
                stamp,
                command,
            },
        );
    }
}

/// The first requests of these clients.
fn firsts(alloc: Global, clients: &[u16]) -> History {
    let mut log = History::new(alloc);
    for client in clients {
        push_many(alloc, &mut log, *client, 1);
    }
    log
}

/// Adds the bytes of an ABORT of replica `r`.
fn put_abort(
    alloc: Global,
    out: &mut Vec<u8>,
    r: u8,
    instance: u32,
    history: History,
) -> Result<(), OutOfMemory> {
    let content = Content::Abort {
        maker: Party::Replica(r),
        instance,
        history,
    };
    let bytes = content_bytes(alloc, &content)?;
    out.extend_from_slice(bytes.as_slice())?;
    out.extend_from_slice(&SIG.to_be_bytes())?;
    for _ in 0..SIG {
        out.push(0)?;
    }
    Ok(())
}

/// The bytes of an ABORT with each of these logs.
fn bytes_of(alloc: Global, logs: &[&[u16]]) -> Result<Vec<u8>, OutOfMemory> {
    let mut bytes = Vec::new(alloc);
    for clients in logs {
        put_abort(alloc, &mut bytes, 0, 1, firsts(alloc, clients))?;
    }
    Ok(bytes)
}

/// The list once more.
fn again<'a, P: Part<'a>>(list: &ListRef<'a, P>) -> ListRef<'a, P>
    ensures count { result.count ≡ list.now.count }
    ensures bytes { result.bytes ≡ list.now.bytes }
{
    *list
}

/// A tree of the logs of these ABORTs, seven at most, and how many there are.
fn tree_of<'a>(
    alloc: Global,
    cert: &ListRef<'a, SignedRef<'a>>,
) -> Result<(Tree, usize), OutOfMemory>
    ensures { IfOk result (λ x. length x.0 ≡ x.1) }
{
    let mut tree = Tree::new(alloc);
    let mut count = 0;
    'aborts: for abort in again(cert) {
        if count == 7 {
            return Ok((tree, count));
        }
        if let ContentRef::Abort { history, .. } = abort.content {
            tree.add_view(alloc, &history)?;
            count += 1;
        }
    }
    Ok((tree, count))
}

/// Whether the tree of the three logs in these bytes has so many nodes, and two of them begin with this log at most.
fn has(alloc: Global, bytes: &[u8], nodes: usize, want: &History) -> Result<bool, OutOfMemory> {
    let cert = ListRef::of(3, bytes);
    let (tree, count) = tree_of(alloc, &cert)?;
    if count != 3 {
        return Ok(false);
    }
    let deepest = tree.deepest(alloc, 2)?;
    Ok(tree.nodes() == nodes && deepest.is_equal(want))
}

/// Whether the rows of three logs are as they are of logs that are owned.
fn rows_hold(alloc: Global) -> Result<bool, OutOfMemory> {
    let fork = bytes_of(
        alloc,
        [[0, 1].as_slice(), [0, 2].as_slice(), [0].as_slice()].as_slice(),
    )?;
    let twice = bytes_of(
        alloc,
        [[0, 1].as_slice(), [0, 1].as_slice(), [].as_slice()].as_slice(),
    )?;
    let first = firsts(alloc, [0].as_slice());
    let both = firsts(alloc, [0, 1].as_slice());
    Ok(has(alloc, &fork, 3, &first)? && has(alloc, &twice, 2, &both)?)
}

#[test]
fn logs_in_bytes_are_counted_once(rt: HostRuntime) {
    assert!(rt; rows_hold(rt.alloc()) == Ok(true));
}

/// How many nodes the tree of five equal logs of 1,024 requests has.
fn nodes_of_five(alloc: Global) -> Result<usize, OutOfMemory> {
    let mut bytes = Vec::new(alloc);
    for r in 0..5 {
        let mut log = History::new(alloc);
        push_many(alloc, &mut log, 0, 1024);
        put_abort(alloc, &mut bytes, r, 1, log)?;
    }
    let cert = ListRef::of(5, bytes.as_slice());
    let (tree, count) = tree_of(alloc, &cert)?;
    Ok(if count == 5 { tree.nodes() } else { 0 })
}

#[test]
fn five_equal_logs_in_bytes_have_one_path(rt: HostRuntime) {
    assert!(rt; nodes_of_five(rt.alloc()) == Ok(1024));
}

/// Whether each is signed by one of so many replicas.
fn are_aborts<'a>(cert: &ListRef<'a, SignedRef<'a>>, replicas: u8) -> bool
    ensures { IsTrue result → AreAborts replicas (aborts cert.now) }
{
    'aborts: for abort in again(cert) {
        if abort.maker >= replicas {
            return false;
        }
    }
    true
}

/// An ABORT: its signer, its instance, and the clients whose first requests its log has.
type Row = (u8, u32, &'static [u16]);

/// How long the history of these ABORTs in instance 1 is, or what is wrong with them, where one replica may be faulty.
fn answer(alloc: Global, plan: Plan, rows: &[Row]) -> Result<Option<Verdict>, OutOfMemory> {
    let Some(c) = Cluster::new(1, 1, plan, 0) else {
        return Ok(None);
    };
    let mut bytes = Vec::new(alloc);
    let mut count: u16 = 0;
    for row in rows {
        put_abort(alloc, &mut bytes, row.0, row.1, firsts(alloc, row.2))?;
        count = count.wrapping_add(1);
    }
    let cert = ListRef::of(count, bytes.as_slice());
    if !are_aborts(&cert, c.replicas()) {
        return Ok(None);
    }
    match check_view(alloc, &c, 1, &cert) {
        Ok(h) => Ok(Some(Verdict::Long(h.len()))),
        Err(fault) => Ok(Some(Verdict::Fault(fault))),
    }
}

/// What is said of a certificate.
#[derive(Clone, Copy, Debug, PartialEq, Eq)]
enum Verdict {
    Long(usize),
    Fault(CertFault),
}

/// The plan, the ABORTs, and what is said of them.
const TABLE: [(Plan, &[Row], Verdict); 9] = [
    (
        Plan::Quorum,
        &[(0, 1, &[0]), (1, 1, &[0])],
        Verdict::Fault(CertFault::Count),
    ),
    (
        Plan::Quorum,
        &[(0, 1, &[0]), (1, 1, &[0]), (2, 1, &[0]), (3, 1, &[0])],
        Verdict::Fault(CertFault::Count),
    ),
    (
        Plan::Quorum,
        &[(2, 1, &[0]), (1, 1, &[0]), (2, 1, &[0])],
        Verdict::Fault(CertFault::SameSigner(2)),
    ),
    (
        Plan::Quorum,
        &[(2, 2, &[0]), (1, 2, &[0]), (2, 2, &[0])],
        Verdict::Fault(CertFault::SameSigner(2)),
    ),
    (
        Plan::Quorum,
        &[(2, 2, &[0]), (1, 2, &[0]), (0, 2, &[0])],
        Verdict::Fault(CertFault::WrongInstance(2)),
    ),
    (
        Plan::Backup,
        &[(3, 1, &[0]), (1, 1, &[1])],
        Verdict::Fault(CertFault::Unequal),
    ),
    (
        Plan::Backup,
        &[(3, 1, &[0]), (1, 1, &[0])],
        Verdict::Long(1),
    ),
    (
        Plan::ZLight,
        &[(0, 1, &[0]), (1, 1, &[0]), (2, 1, &[0])],
        Verdict::Long(1),
    ),
    (
        Plan::Chain,
        &[(3, 1, &[0, 1]), (1, 1, &[0, 2]), (0, 1, &[0])],
        Verdict::Long(1),
    ),
];

/// Whether each row is as the table says.
fn table_holds(alloc: Global) -> Result<bool, OutOfMemory> {
    for row in &TABLE {
        if answer(alloc, row.0, row.1)? != Some(row.2) {
            return Ok(false);
        }
    }
    Ok(true)
}

#[test]
fn certificates_in_bytes_are_checked(rt: HostRuntime) {
    assert!(rt; table_holds(rt.alloc()) == Ok(true));
}
