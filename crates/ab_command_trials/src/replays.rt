//! Replays of schedules of four replicas.

use crate::calls::{Failing, NOTHING, call, expect};
use std::alloc::{AllocError, Global};
use std::process::Abort;
use std::test::Fail;

/// The head of a schedule and its other lines, which calls fail, the status, and what is written and said.
#[derive(Clone, Copy)]
struct Case {
    head: &'static str,
    lines: &'static str,
    failing: Failing,
    status: u8,
    out: &'static str,
    err: &'static str,
}

/// One client, before the faulty parties.
const QUORUM: &str = "abstract 1\nf 1\nplan quorum\nclients 1\nservice kv\nlms 5\n";

/// The same with the keys of a seed, and a faulty replica.
const SEEDED: &str =
    "abstract 4\nf 1\nplan quorum\nclients 1\nservice kv\nlms 5\ncheckpoint 0\nseed 000102030405060708090a0b0c0d0e0f101112131415161718191a1b1c1d1e1f\nfaulty r3 1\n";

/// The same, and another seed.
const OTHERWISE: &str =
    "abstract 4\nf 1\nplan quorum\nclients 1\nservice kv\nlms 5\ncheckpoint 0\nseed 0102030405060708090a0b0c0d0e0f101112131415161718191a1b1c1d1e1f20\nfaulty r3 1\n";

/// One client of a plan that has no checkpoints yet.
const NOT_BUILT: &str =
    "abstract 3\nf 1\nplan aliph\nclients 1\nservice kv\nlms 5\ncheckpoint 64\n";

/// Two clients of a chain whose head is faulty and has two cores.
const TWINS: &str = "abstract 1\nf 1\nplan chain\nclients 2\nservice kv\nlms 5\nfaulty r0 2\n";

fn expect_case(rt: &impl Abort, alloc: Global, case: &Case) -> Result<(), AllocError> {
    let mut content = Vec::from_slice(alloc, case.head.as_bytes())?;
    content.extend_from_slice(case.lines.as_bytes())?;
    let told = call(alloc, &["replay"], &content, &case.failing)?;
    expect(rt, &told, case.status, case.out, case.err);
    Ok(())
}

fn expect_each(rt: &impl Abort, alloc: Global, cases: &[Case]) -> Result<(), AllocError> {
    for case in cases {
        expect_case(rt, alloc, case)?;
    }
    Ok(())
}

/// A commit; a reply under the key of r3, which never made it; twins that are handed one client's request each; and more
/// faulty replicas than may be.
const REPORTS: [Case; 4] = [
    Case {
        head: QUORUM,
        lines: "run\ninvoke c0 put a 1\ndeliver 1\ndeliver 2\ndeliver 3\ndeliver 4\ndeliver 5\ndeliver 6\ndeliver 7\ndeliver 8\nend\n",
        failing: NOTHING,
        status: 0,
        out: "invoked 1 c0 1 1\ncommit 9 c0 1 1 1 ok\nlog r0 1 c0.1\nlog r1 1 c0.1\nlog r2 1 c0.1\nlog r3 1 c0.1\npremise held\nend 9 8\n",
        err: "",
    },
    Case {
        head: QUORUM,
        lines: "run\ninvoke c0 put a 1\ndeliver 1\ndeliver 2\ndeliver 3\ndeliver 4\ndeliver 5\ndeliver 6\ndeliver 7\ninject c0 030300000300000001000000000000000000010001688e05e3250f603fe42468fe71560525868d0b254ba6463c94985b87d2909ac0026e6f2976507b9f21858ef1298271561e0883b9393513c27b0ed3fb8ac53a15a049cd\nend\n",
        failing: NOTHING,
        status: 1,
        out: "invoked 1 c0 1 1\nlog r0 1 c0.1\nlog r1 1 c0.1\nlog r2 1 c0.1\nlog r3 1 c0.1\npremise broken 9 forged r3\nend 9 8\n",
        err: "",
    },
    Case {
        head: TWINS,
        lines: "run\ninvoke c0 put a 1\ninvoke c1 put b 2\ndeliver 1 r0.1\ndeliver 2 r0.2\ndeliver 3\ndeliver 4\ndeliver 5\ndeliver 6\ndeliver 7\nend\n",
        failing: NOTHING,
        status: 0,
        out: "invoked 1 c0 1 1\ninvoked 2 c1 1 1\ncommit 9 c0 1 1 1 ok\nlog r1 1 c0.1\nlog r2 1 c0.1\nlog r3 1 c0.1\npremise held\nend 9 7\n",
        err: "",
    },
    Case {
        head: QUORUM,
        lines: "faulty r0 1\nfaulty r1 1\nrun\nend\n",
        failing: NOTHING,
        status: 1,
        out: "log r2 1 -\nlog r3 1 -\npremise broken 0 faulty r1\nend 0 0\n",
        err: "",
    },
];

#[test]
fn reports_are_written(rt: HostRuntime) -> Result<(), Fail> {
    Ok(expect_each(&rt, rt.alloc(), &REPORTS)?)
}

/// A request to four replicas, the answers of three of them, and an answer of the faulty r3 whose tag has the key of the first of
/// two seeds.
const BY_A_SEED: &str =
    "run\ninvoke c0 put a 1\ndeliver 1\ndeliver 2\ndeliver 3\ndeliver 4\ndeliver 5\ndeliver 6\ndeliver 7\ninject c0 030300000300000001000000000000000000010001688e05e3250f603fe42468fe71560525868d0b254ba6463c94985b87d2909ac0026f6b1e1179380e45a152952ca2ca2a2b10b3dfb8bc9506dc0c383d13fc6ee67d4433\nend\n";

#[test]
fn keys_are_those_of_the_seed(rt: HostRuntime) -> Result<(), Fail> {
    let cases = [
        Case {
            head: SEEDED,
            lines: BY_A_SEED,
            failing: NOTHING,
            status: 0,
            out: "invoked 1 c0 1 1\ncommit 9 c0 1 1 1 ok\nlog r0 1 c0.1\nlog r1 1 c0.1\nlog r2 1 c0.1\npremise held\nend 9 8\n",
            err: "",
        },
        Case {
            head: OTHERWISE,
            lines: BY_A_SEED,
            failing: NOTHING,
            status: 0,
            out: "invoked 1 c0 1 1\nrefused 9 c0 tag\nlog r0 1 c0.1\nlog r1 1 c0.1\nlog r2 1 c0.1\npremise held\nend 9 8\n",
            err: "",
        },
    ];
    Ok(expect_each(&rt, rt.alloc(), &cases)?)
}

/// A refusal of lines.
fn refused(lines: &'static str, err: &'static str) -> Case {
    refused_behind(QUORUM, lines, err)
}

/// A refusal of lines behind a head.
fn refused_behind(head: &'static str, lines: &'static str, err: &'static str) -> Case {
    Case {
        head,
        lines,
        failing: NOTHING,
        status: 3,
        out: "",
        err,
    }
}

#[test]
fn other_lines_are_refused(rt: HostRuntime) -> Result<(), Fail> {
    let cases = [
        refused("run\ndeliver 01\nend\n", "line 8: bad line\n"),
        refused("run\n", "line 8: no end\n"),
        refused("run\ndeliver 9\nend\n", "line 8: no packet\n"),
        refused(
            "run\ninvoke c0 put a 1\ndeliver 1 r0.1\nend\n",
            "line 9: bad party\n",
        ),
        refused(
            "run\ninvoke c0 put a 1\ninvoke c0 get a\nend\n",
            "line 9: busy\n",
        ),
        refused_behind(NOT_BUILT, "run\nend\n", "line 7: not built\n"),
        refused_behind(SEEDED, "run\ndeliver 9\nend\n", "line 11: no packet\n"),
    ];
    Ok(expect_each(&rt, rt.alloc(), &cases)?)
}

/// Lines that are replayed while calls fail.
fn failing(lines: &'static str, failing: Failing, status: u8, err: &'static str) -> Case {
    Case {
        head: QUORUM,
        lines,
        failing,
        status,
        out: "",
        err,
    }
}

#[test]
fn faults_of_the_streams_are_said(rt: HostRuntime) -> Result<(), Fail> {
    let takes = Failing {
        takes: &[1],
        ..NOTHING
    };
    let puts = Failing {
        puts: &[1],
        ..NOTHING
    };
    let says = Failing {
        says: &[1],
        ..NOTHING
    };
    let cases = [
        failing("run\nend\n", takes, 4, "read fault\n"),
        failing("run\nend\n", puts, 5, "write fault\n"),
        failing("x", says, 5, ""),
    ];
    Ok(expect_each(&rt, rt.alloc(), &cases)?)
}
