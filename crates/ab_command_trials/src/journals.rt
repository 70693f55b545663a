//! Nodes with a journal, over a disk in memory.

ghost use Rattle.std.specs.Prelude.{◌<◌, ◌^◌, length};

use crate::calls::{NOTHING, call_on, disk, expect};
use crate::nodes::{CLIENT, node_text, replies};
use ab_disk::MemDisk;
use std::alloc::{AllocError, Global};
use std::process::Abort;
use std::test::Fail;

const PLAIN: &[&str] = &["node", "--base=9000", "--wait=50", "--turns=4"];

const NODE: &[&str] = &[
    "node",
    "--base=9000",
    "--wait=50",
    "--turns=4",
    "--journal=c0.journal",
];

const COMMANDS: &str = "do put a 1\nend\n";

/// How a client ends: its status, what it writes and says, and how many datagrams were sent.
#[derive(Clone, Copy)]
struct End {
    status: u8,
    out: &'static str,
    err: &'static str,
    sent: usize,
}

const ASKED: End = End {
    status: 8,
    out: "end 1 4 0 0\n",
    err: "turns spent 1\n",
    sent: 4,
};

const ANSWERED: End = End {
    status: 0,
    out: "reply 1 1 1 ok\nend 5 0 0 0\n",
    err: "",
    sent: 0,
};

/// How a client has to end over this disk, if these datagrams come.
fn expect_end(
    rt: &impl Abort,
    alloc: Global,
    words: &[&str],
    datagrams: Vec<Vec<u8>>,
    journal: &mut MemDisk,
    end: End,
) -> Result<(), AllocError> {
    let text = node_text(alloc, CLIENT, COMMANDS)?;
    let told = call_on(alloc, words, &text, datagrams, journal, &NOTHING)?;
    expect(rt, &told, end.status, end.out, end.err);
    assert!(rt; told.link.sent().len() == end.sent);
    Ok(())
}

/// What the replicas answer to the client's request.
fn answers(rt: &impl Abort, alloc: Global) -> Result<Vec<Vec<u8>>, Fail> {
    let text = node_text(alloc, CLIENT, COMMANDS)?;
    replies(rt, alloc, &text)
}

/// A client is stopped after its first event. Its next run commits with the replies to the first one's request, and sends nothing.
#[test]
fn a_client_goes_on(rt: HostRuntime) -> Result<(), Fail> {
    let alloc = rt.alloc();
    let datagrams = answers(&rt, alloc)?;
    let mut journal = disk(alloc, b"", &[])?;
    expect_end(&rt, alloc, NODE, Vec::new(alloc), &mut journal, ASKED)?;
    expect_end(&rt, alloc, NODE, datagrams, &mut journal, ANSWERED)?;
    expect_end(&rt, alloc, NODE, Vec::new(alloc), &mut journal, ANSWERED)?;
    Ok(())
}

/// How a client has to end over a disk with this content, of which this sync fails.
fn expect_over(
    rt: &impl Abort,
    alloc: Global,
    content: &[u8],
    sync: u64,
    end: End,
) -> Result<(), AllocError>
    requires { length content.now < 2 ^ 62 }
{
    let mut journal = disk(alloc, content, &[sync])?;
    expect_end(rt, alloc, NODE, Vec::new(alloc), &mut journal, end)
}

const FAILED: End = End {
    status: 10,
    out: "",
    err: "disk fault\n",
    sent: 0,
};

/// An empty journal takes two syncs to open and two for its first entry. The fifth is the first of an event.
#[test]
fn nothing_leaves_that_is_not_kept(rt: HostRuntime) -> Result<(), Fail> {
    let alloc = rt.alloc();
    expect_over(&rt, alloc, b"", 5, FAILED)?;
    expect_over(&rt, alloc, b"", 1, FAILED)?;
    Ok(())
}

const REFUSED: End = End {
    status: 11,
    out: "",
    err: "journal refused 1\n",
    sent: 0,
};

/// The entry of an empty body names no text. A gate that was opened before anything stood behind it counts for nothing.
#[test]
fn entries_are_looked_at(rt: HostRuntime) -> Result<(), Fail> {
    let alloc = rt.alloc();
    expect_over(&rt, alloc, &[1, 0, 0, 0, 0, 0], 100, REFUSED)?;
    expect_over(&rt, alloc, &[1], 100, ASKED)?;
    Ok(())
}

/// A node without a journal leaves the disk alone.
#[test]
fn no_journal_no_disk(rt: HostRuntime) -> Result<(), Fail> {
    let alloc = rt.alloc();
    let mut journal = disk(alloc, b"", &[])?;
    expect_end(&rt, alloc, PLAIN, Vec::new(alloc), &mut journal, ASKED)?;
    assert!(&rt; journal.content().is_empty());
    Ok(())
}
