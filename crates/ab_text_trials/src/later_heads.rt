//! The lines of the head of a schedule that only later versions have.

ghost use Rattle.std.specs.Prelude.{◌<◌, ◌^◌, length};

use ab_num::{Plan, Scheme};
use ab_text::{Head, TextFault, lines_of_head, read_schedule};
use std::alloc::Global;
use std::process::Abort;

/// 64 digits.
const DIGITS: &str = "000102030405060708090a0b0c0d0e0f101112131415161718191a1b1c1d1eff";

/// The same number of digits, with one in upper case.
const UPPER: &str = "000102030405060708090A0b0c0d0e0f101112131415161718191a1b1c1d1eff";

/// A digit less.
const SHORT: &str = "000102030405060708090a0b0c0d0e0f101112131415161718191a1b1c1d1ef";

/// The head that a text has from its first line, its plan and what comes after the sixth, or what is wrong with it.
fn head_of(alloc: Global, first: &str, plan: &str, rest: &str) -> Option<Result<Head, TextFault>> {
    let text = format!(in alloc;
        "abstract {first}\nf 1\nplan {plan}\nclients 2\nservice echo\nlms 20\n{rest}"
    ).ok()?;
    if text.len() > 1000 {
        return None;
    }
    Some(match read_schedule(alloc, text.as_bytes()) {
        Ok(schedule) => Ok(schedule.head),
        Err(fault) => Err(fault),
    })
}

/// The head of a text whose plan is `quorum`.
fn head_by(alloc: Global, first: &str, rest: &str) -> Option<Result<Head, TextFault>> {
    head_of(alloc, first, "quorum", rest)
}

/// Checks that what comes after the sixth line is refused so.
fn refused(rt: &impl Abort, alloc: Global, cases: &[(&str, &str, TextFault)]) -> Option<()> {
    for (first, rest, fault) in cases {
        match head_by(alloc, *first, *rest)? {
            Ok(_) => assert!(rt; false, "{first} {rest}"),
            Err(found) => assert!(rt; found == *fault, "{first} {rest}"),
        }
    }
    Some(())
}

#[test]
fn checkpoints(rt: HostRuntime) {
    let cases = [
        ("3", "", TextFault::NoEnd(7)),
        ("3", "run\nend\n", TextFault::BadLine(7)),
        ("3", "checkpoint\n", TextFault::BadLine(7)),
        ("3", "checkpoint \n", TextFault::BadLine(7)),
        ("3", "checkpoint 00\n", TextFault::BadLine(7)),
        ("3", "checkpoint 0 \n", TextFault::BadLine(7)),
        ("3", "checkpoint 129\n", TextFault::BadLine(7)),
        (
            "3",
            "checkpoint 18446744073709551616\n",
            TextFault::BadLine(7),
        ),
        ("3", "checkpoint 1\n", TextFault::NoEnd(8)),
        ("4", "checkpoint 64", TextFault::NoEnd(8)),
        ("3", "checkpoint 64\nfoo\n", TextFault::BadLine(8)),
        ("1", "checkpoint 0\nrun\nend\n", TextFault::BadLine(6)),
        ("2", "checkpoint 0\nrun\nend\n", TextFault::BadLine(7)),
        ("3", "checkpoint 0\n", TextFault::NoEnd(8)),
        ("3", "checkpoint 0\nrun\n", TextFault::NoEnd(9)),
        ("3", "checkpoint 0\ncheckpoint 0\n", TextFault::BadLine(8)),
        (
            "3",
            "checkpoint 0\nfaulty r4 1\nrun\n",
            TextFault::BadLine(8),
        ),
        (
            "3",
            "checkpoint 0\nfaulty r0 1\nrun\nfoo\n",
            TextFault::BadLine(10),
        ),
        ("3", "checkpoint 0\nrun\nend\nend\n", TextFault::BadLine(10)),
    ];
    refused(&rt, rt.alloc(), &cases).expect(&rt, "memory");
}

#[test]
fn plans_with_checkpoints(rt: HostRuntime) {
    let alloc = rt.alloc();
    for plan in ["quorum", "zlight", "chain"] {
        let read = head_of(alloc, "3", plan, "checkpoint 128\nrun\nend\n").expect(&rt, "memory");
        let head = read.expect(&rt, "a schedule");
        assert!(rt; head.cluster.every == 128, "{plan}");
    }
}

#[test]
fn plans_whose_checkpoints_are_not_built(rt: HostRuntime) {
    let alloc = rt.alloc();
    for plan in ["azyzzyva", "aliph", "backup"] {
        let read = head_of(alloc, "3", plan, "checkpoint 1\nrun\nend\n").expect(&rt, "memory");
        let fault = read.err().expect(&rt, "a fault");
        assert!(rt; fault == TextFault::NotBuilt(7), "{plan}");
        let read = head_of(alloc, "3", plan, "checkpoint 129\n").expect(&rt, "memory");
        let fault = read.err().expect(&rt, "a fault");
        assert!(rt; fault == TextFault::BadLine(7), "{plan}");
    }
}

#[test]
fn a_plan_without_checkpoints(rt: HostRuntime) {
    let alloc = rt.alloc();
    let cases = [("3", "1"), ("3", "128"), ("4", "64"), ("4", "129")];
    for (first, every) in cases {
        let rest = format!(in alloc; "checkpoint {every}\n").expect(&rt, "memory");
        let read = head_of(alloc, first, "zcert", rest.as_str()).expect(&rt, "memory");
        let fault = read.err().expect(&rt, "a fault");
        assert!(rt; fault == TextFault::BadLine(7), "{first} {every}");
    }
    let read = head_of(alloc, "3", "zcert", "checkpoint 0\nrun\nend\n").expect(&rt, "memory");
    let head = read.expect(&rt, "a schedule");
    assert!(rt; head.cluster.plan == Plan::ZCert && head.cluster.every == 0);
}

/// What comes after the sixth line, with this line behind that of checkpoints.
fn with_line(alloc: Global, line: &str) -> Option<String> {
    format!(in alloc; "checkpoint 0\n{line}\nrun\nend\n").ok()
}

/// Checks that this line behind that of checkpoints is refused so.
fn expect_fault(rt: &impl Abort, alloc: Global, first: &str, line: &str, fault: TextFault) {
    let rest = with_line(alloc, line).expect(rt, "memory");
    refused(rt, alloc, &[(first, rest.as_str(), fault)]).expect(rt, "memory");
}

#[test]
fn seeds(rt: HostRuntime) {
    let alloc = rt.alloc();
    let cases = [
        ("4", "checkpoint 0\n", TextFault::NoEnd(8)),
        ("4", "checkpoint 0\nrun\nend\n", TextFault::BadLine(8)),
        ("4", "seed 00\n", TextFault::BadLine(7)),
        ("4", "checkpoint 0\nseed\n", TextFault::BadLine(8)),
        ("4", "checkpoint 0\nseed \n", TextFault::BadLine(8)),
    ];
    refused(&rt, alloc, &cases).expect(&rt, "memory");
    let upper = format!(in alloc; "seed {UPPER}").expect(&rt, "memory");
    let good = format!(in alloc; "seed {DIGITS}").expect(&rt, "memory");
    let longer = format!(in alloc; "seed {DIGITS}0").expect(&rt, "memory");
    let spaced = format!(in alloc; "seed  {DIGITS}").expect(&rt, "memory");
    let short = format!(in alloc; "seed {SHORT}").expect(&rt, "memory");
    expect_fault(&rt, alloc, "4", upper.as_str(), TextFault::BadLine(8));
    expect_fault(&rt, alloc, "4", longer.as_str(), TextFault::BadLine(8));
    expect_fault(&rt, alloc, "4", spaced.as_str(), TextFault::BadLine(8));
    expect_fault(&rt, alloc, "4", short.as_str(), TextFault::BadLine(8));
    expect_fault(&rt, alloc, "3", good.as_str(), TextFault::BadLine(8));
}

#[test]
fn what_they_say(rt: HostRuntime) {
    let alloc = rt.alloc();
    let read = head_by(alloc, "3", "checkpoint 0\nrun\nend\n").expect(&rt, "memory");
    let head = read.expect(&rt, "a schedule");
    assert!(rt; head.cluster.every == 0 && head.seed == [0; 32] && head.lms == Scheme::Hss);

    let line = format!(in alloc; "seed {DIGITS}").expect(&rt, "memory");
    let rest = with_line(alloc, line.as_str()).expect(&rt, "memory");
    let read = head_by(alloc, "4", rest.as_str()).expect(&rt, "memory");
    let head = read.expect(&rt, "a schedule");
    assert!(rt; head.cluster.every == 0);
    assert!(rt; head.seed[0] == 0 && head.seed[1] == 1 && head.seed[16] == 16);
    assert!(rt; head.seed[30] == 30 && head.seed[31] == 255);
}

#[test]
fn heads_have_six_to_eight_lines(rt: HostRuntime) {
    let cases = [
        ("abstract 1\n", 6),
        ("abstract 2\nf 1\n", 6),
        ("abstract 3\n", 7),
        ("abstract 3", 7),
        ("abstract 4\nf 3\n", 8),
        ("abstract 5\n", 6),
        ("", 6),
    ];
    for (text, count) in cases {
        assert!(rt; lines_of_head(text.as_bytes()) == count, "{text}");
    }
}
