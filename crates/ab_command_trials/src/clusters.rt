//! Clusters, whose nodes are children in memory.

use crate::calls::{Failing, NOTHING, Told, call, call_children, expect};
use ab_cluster::{Ended, Started};
use std::alloc::{AllocError, Global};
use std::process::Abort;
use std::test::Fail;

const CLUSTER: &[&str] = &[
    "cluster",
    "--plan=quorum",
    "--f=1",
    "--service=kv",
    "--lms=5",
    "--seed=0000000000000000000000000000000000000000000000000000000000000000",
    "--base=20000",
    "--wait=50",
    "--turns=200",
];

const NODE: &[&str] = &["node", "--base", "20000", "--wait", "50", "--turns", "200"];

const COMMANDS: &str = "do put a 1\nend\n";

/// What the client writes.
const WRITTEN: &str = "reply 1 1 1 ok\nend 5 4 0 0\n";

/// Which calls of a cluster fail, with which statuses its nodes end, its own status, and what it writes and says.
#[derive(Clone, Copy)]
struct Case {
    failing: Failing,
    statuses: [u8; 5],
    status: u8,
    out: &'static str,
    err: &'static str,
}

const CASES: [Case; 6] = [
    Case {
        failing: NOTHING,
        statuses: [0, 0, 0, 0, 0],
        status: 0,
        out: "child r0 0\nchild r1 0\nchild r2 0\nchild r3 0\nchild c0 0\nreply 1 1 1 ok\nend 5 4 0 0\n",
        err: "",
    },
    Case {
        failing: NOTHING,
        statuses: [0, 6, 0, 0, 8],
        status: 1,
        out: "child r0 0\nchild r1 6\nchild r2 0\nchild r3 0\nchild c0 8\nreply 1 1 1 ok\nend 5 4 0 0\n",
        err: "",
    },
    Case {
        failing: Failing {
            starts: &[2],
            ..NOTHING
        },
        statuses: [0, 0, 0, 0, 0],
        status: 12,
        out: "child r0 0\nchild r1 none\nchild r2 none\nchild r3 none\nchild c0 none\n",
        err: "child fault\n",
    },
    Case {
        failing: Failing {
            waits: &[3],
            ..NOTHING
        },
        statuses: [6, 0, 0, 0, 0],
        status: 12,
        out: "child r0 6\nchild r1 0\nchild r2 none\nchild r3 0\nchild c0 0\nreply 1 1 1 ok\nend 5 4 0 0\n",
        err: "child fault\n",
    },
    Case {
        failing: Failing {
            waits: &[3],
            says: &[1],
            ..NOTHING
        },
        statuses: [0, 0, 0, 0, 0],
        status: 5,
        out: "child r0 0\nchild r1 0\nchild r2 none\nchild r3 0\nchild c0 0\nreply 1 1 1 ok\nend 5 4 0 0\n",
        err: "",
    },
    Case {
        failing: Failing {
            starts: &[1],
            puts: &[1],
            ..NOTHING
        },
        statuses: [0, 0, 0, 0, 0],
        status: 5,
        out: "",
        err: "write fault\n",
    },
];

/// Children that end with these statuses, of which the last writes.
fn ends(alloc: Global, statuses: &[u8; 5]) -> Result<Vec<Ended>, AllocError> {
    let mut all = Vec::new(alloc);
    for (n, status) in statuses.iter().enumerate() {
        let out: &[u8] = if n == 4 { WRITTEN.as_bytes() } else { b"" };
        all.push(Ended {
            status: *status,
            out: Vec::from_slice(alloc, out)?,
        })?;
    }
    Ok(all)
}

fn expect_case(rt: &impl Abort, alloc: Global, case: &Case) -> Result<(), AllocError> {
    let ends = ends(alloc, &case.statuses)?;
    let told = call_children(alloc, CLUSTER, COMMANDS.as_bytes(), ends, &case.failing)?;
    expect(rt, &told, case.status, case.out, case.err);
    drop(told);
    Ok(())
}

#[test]
fn clusters_are_gathered(rt: HostRuntime) -> Result<(), Fail> {
    for case in &CASES {
        expect_case(&rt, rt.alloc(), case)?;
    }
    Ok(())
}

/// The text that sets up the node of a party of the cluster with these checkpoints: its keys, and these lines.
fn node_text(
    alloc: Global,
    every: &'static str,
    party: &'static str,
    lines: &str,
) -> Result<Vec<u8>, AllocError> {
    let words = [
        "keys",
        "--plan=quorum",
        "--f=1",
        "--clients=1",
        "--service=kv",
        "--lms=5",
        "--seed=0000000000000000000000000000000000000000000000000000000000000000",
        every,
        party,
    ];
    let keys = call(alloc, &words, b"", &NOTHING)?;
    let mut text = Vec::from_slice(alloc, keys.out.bytes())?;
    text.extend_from_slice(lines.as_bytes())?;
    Ok(text)
}

/// The child that was started is the node of this party of the cluster with these checkpoints, and was waited for.
fn expect_node(
    rt: &impl Abort,
    alloc: Global,
    child: &Started,
    every: &'static str,
    party: &'static str,
    lines: &str,
) -> Result<(), AllocError> {
    assert!(rt; child.waited);
    assert!(rt; child.job.words.len() == NODE.len());
    for (word, wanted) in child.job.words.iter().zip(NODE) {
        assert!(rt; word.as_str() == *wanted);
    }
    let text = node_text(alloc, every, party, lines)?;
    assert!(rt; child.job.input.as_slice() == text.as_slice());
    Ok(())
}

const PARTIES: [(&str, &str); 5] = [
    ("--party=r0", "end\n"),
    ("--party=r1", "end\n"),
    ("--party=r2", "end\n"),
    ("--party=r3", "end\n"),
    ("--party=c0", COMMANDS),
];

/// The cluster with these checkpoints, none of whose calls fail.
fn call_cluster(alloc: Global, every: &'static str) -> Result<Told, AllocError> {
    let mut words = Vec::from_slice(alloc, CLUSTER)?;
    words.push(every)?;
    let ends = ends(alloc, &CASES[0].statuses)?;
    call_children(alloc, &words, COMMANDS.as_bytes(), ends, &NOTHING)
}

/// The children are the nodes of the parties of that cluster.
fn expect_nodes(
    rt: &impl Abort,
    alloc: Global,
    children: &[Started],
    every: &'static str,
) -> Result<(), AllocError> {
    assert!(rt; children.len() == PARTIES.len());
    for (child, (party, lines)) in children.iter().zip(&PARTIES) {
        expect_node(rt, alloc, child, every, *party, *lines)?;
    }
    Ok(())
}

fn expect_cluster(rt: &impl Abort, alloc: Global, every: &'static str) -> Result<(), AllocError> {
    let told = call_cluster(alloc, every)?;
    expect(rt, &told, 0, CASES[0].out, "");
    let found = expect_nodes(rt, alloc, told.spawner.started(), every);
    drop(told);
    found
}

#[test]
fn each_party_is_a_node(rt: HostRuntime) -> Result<(), Fail> {
    expect_cluster(&rt, rt.alloc(), "--checkpoint=0")?;
    Ok(expect_cluster(&rt, rt.alloc(), "--checkpoint=64")?)
}

/// An input that is refused, which calls fail, and the status and what is said.
const REFUSED: [(&str, Failing, u8, &str); 6] = [
    ("", NOTHING, 3, "line 1: no end\n"),
    ("do put a 1\n", NOTHING, 3, "line 2: no end\n"),
    ("do \nend\n", NOTHING, 3, "line 1: bad line\n"),
    ("do get a\nput a 1\nend\n", NOTHING, 3, "line 2: bad line\n"),
    ("end\nend\n", NOTHING, 3, "line 2: bad line\n"),
    (
        COMMANDS,
        Failing {
            takes: &[1],
            ..NOTHING
        },
        4,
        "read fault\n",
    ),
];

#[test]
fn no_node_is_started_for_a_bad_input(rt: HostRuntime) -> Result<(), Fail> {
    let alloc = rt.alloc();
    for (input, failing, status, err) in &REFUSED {
        let told = call_children(alloc, CLUSTER, input.as_bytes(), Vec::new(alloc), failing)?;
        expect(&rt, &told, *status, "", *err);
        assert!(&rt; told.spawner.started().is_empty());
    }
    Ok(())
}
