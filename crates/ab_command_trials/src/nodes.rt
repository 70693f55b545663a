//! Nodes: that of a client whose replicas say nothing, and those of a whole cluster.

use crate::calls::{Failing, NOTHING, call, call_over, expect};
use ab_io::MemLink;
use std::alloc::{AllocError, Global};
use std::process::Abort;
use std::test::Fail;

const NODE: &[&str] = &["node", "--base=9000", "--wait=50", "--turns=4"];

/// Which calls of a node fail, its status, what it writes and says, and how many datagrams were sent.
#[derive(Clone, Copy)]
struct Case {
    failing: Failing,
    status: u8,
    out: &'static str,
    err: &'static str,
    sent: usize,
}

pub(crate) const CLIENT: &str = "--party=c0";

/// The text of the keys of a party, and these lines.
pub(crate) fn node_text(
    alloc: Global,
    party: &'static str,
    lines: &str,
) -> Result<Vec<u8>, AllocError> {
    let words = [
        "keys",
        "--plan=quorum",
        "--f=1",
        "--clients=1",
        "--service=kv",
        "--lms=5",
        "--seed=0000000000000000000000000000000000000000000000000000000000000000",
        party,
    ];
    let keys = call(alloc, &words, b"", &NOTHING)?;
    let mut text = Vec::from_slice(alloc, keys.out.bytes())?;
    text.extend_from_slice(lines.as_bytes())?;
    Ok(text)
}

fn expect_case(rt: &impl Abort, alloc: Global, text: &[u8], case: &Case) -> Result<(), AllocError> {
    let told = call(alloc, NODE, text, &case.failing)?;
    expect(rt, &told, case.status, case.out, case.err);
    assert!(rt; told.link.sent().len() == case.sent);
    Ok(())
}

const LOSSES: [Case; 3] = [
    Case {
        failing: NOTHING,
        status: 8,
        out: "end 1 4 0 0\n",
        err: "turns spent 1\n",
        sent: 4,
    },
    Case {
        failing: Failing {
            sends: &[1, 2, 3, 4],
            ..NOTHING
        },
        status: 8,
        out: "end 1 4 4 0\n",
        err: "turns spent 1\n",
        sent: 0,
    },
    Case {
        failing: Failing {
            sends: &[2],
            ..NOTHING
        },
        status: 8,
        out: "end 1 4 1 0\n",
        err: "turns spent 1\n",
        sent: 3,
    },
];

const FAULTS: [Case; 5] = [
    Case {
        failing: Failing {
            opens: &[1],
            ..NOTHING
        },
        status: 6,
        out: "",
        err: "link fault\n",
        sent: 0,
    },
    Case {
        failing: Failing {
            recvs: &[1],
            ..NOTHING
        },
        status: 6,
        out: "",
        err: "link fault\n",
        sent: 4,
    },
    Case {
        failing: Failing {
            puts: &[1],
            ..NOTHING
        },
        status: 5,
        out: "",
        err: "write fault\n",
        sent: 4,
    },
    Case {
        failing: Failing {
            takes: &[1],
            ..NOTHING
        },
        status: 4,
        out: "",
        err: "read fault\n",
        sent: 0,
    },
    Case {
        failing: Failing {
            opens: &[1],
            says: &[1],
            ..NOTHING
        },
        status: 5,
        out: "",
        err: "",
        sent: 0,
    },
];

fn expect_each(rt: &impl Abort, alloc: Global, cases: &[Case]) -> Result<(), AllocError> {
    let text = node_text(alloc, CLIENT, "do put a 1\nend\n")?;
    for case in cases {
        expect_case(rt, alloc, &text, case)?;
    }
    Ok(())
}

#[test]
fn datagrams_are_lost(rt: HostRuntime) -> Result<(), Fail> {
    Ok(expect_each(&rt, rt.alloc(), &LOSSES)?)
}

#[test]
fn faults_are_said(rt: HostRuntime) -> Result<(), Fail> {
    Ok(expect_each(&rt, rt.alloc(), &FAULTS)?)
}

#[test]
fn a_text_has_an_end(rt: HostRuntime) -> Result<(), Fail> {
    let alloc = rt.alloc();
    let text = node_text(alloc, CLIENT, "do put a 1\n")?;
    let case = Case {
        failing: NOTHING,
        status: 3,
        out: "",
        err: "line 21: no end\n",
        sent: 0,
    };
    Ok(expect_case(&rt, alloc, &text, &case)?)
}

/// The datagrams that were sent to a port.
fn sent_to(alloc: Global, link: &MemLink, port: u16) -> Result<Vec<Vec<u8>>, Fail> {
    let mut datagrams = Vec::new(alloc);
    for sent in link.sent() {
        if sent.0 == port {
            datagrams.push(Vec::from_slice(alloc, &sent.1)?)?;
        }
    }
    Ok(datagrams)
}

/// What the node of a replica sends to the client, when these datagrams come.
fn answers(
    rt: &impl Abort,
    alloc: Global,
    party: &'static str,
    requests: Vec<Vec<u8>>,
) -> Result<Vec<Vec<u8>>, Fail> {
    let text = node_text(alloc, party, "end\n")?;
    let told = call_over(alloc, NODE, &text, requests, &NOTHING)?;
    expect(rt, &told, 0, "end 1 1 0 0\n", "");
    sent_to(alloc, &told.link, 9100)
}

const REPLICAS: [(u16, &str); 4] = [
    (9000, "--party=r0"),
    (9001, "--party=r1"),
    (9002, "--party=r2"),
    (9003, "--party=r3"),
];

/// What the nodes of all replicas answer to what was sent over a link.
fn all_answers(rt: &impl Abort, alloc: Global, asked: &MemLink) -> Result<Vec<Vec<u8>>, Fail> {
    let mut replies = Vec::new(alloc);
    for (port, party) in REPLICAS {
        let requests = sent_to(alloc, asked, port)?;
        for reply in answers(rt, alloc, party, requests)? {
            replies.push(reply)?;
        }
    }
    Ok(replies)
}

/// What they answer to the node that this text sets up.
pub(crate) fn replies(rt: &impl Abort, alloc: Global, text: &[u8]) -> Result<Vec<Vec<u8>>, Fail> {
    let asked = call(alloc, NODE, text, &NOTHING)?;
    all_answers(rt, alloc, &asked.link)
}

/// Runs the node that this text sets up again, now with these replies.
fn expect_commit(
    rt: &impl Abort,
    alloc: Global,
    text: &[u8],
    replies: Vec<Vec<u8>>,
) -> Result<(), AllocError> {
    let told = call_over(alloc, NODE, text, replies, &NOTHING)?;
    expect(rt, &told, 0, "reply 1 1 1 ok\nend 5 4 0 0\n", "");
    Ok(())
}

#[test]
fn a_cluster_commits(rt: HostRuntime) -> Result<(), Fail> {
    let alloc = rt.alloc();
    let text = node_text(alloc, CLIENT, "do put a 1\nend\n")?;
    let replies = replies(&rt, alloc, &text)?;
    Ok(expect_commit(&rt, alloc, &text, replies)?)
}
