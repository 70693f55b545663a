//! Schedules and reports against worked ones.

ghost use Rattle.std.specs.Prelude.{◌<◌};

use ab_num::{Height, OutOfMemory, Party, Plan, Scheme, ServiceName};
use ab_text::{
    Breach, Core, Event, Head, Items, Line, OpenCause, Premise, TextFault, fault_is_first,
    one_reading, read_is_in_form, read_is_spelled, read_schedule, spelled_is_read, write_end,
    write_log, write_premise, write_seen,
};
use arrayvec::ArrayVec;
use std::alloc::Global;
use std::process::Abort;

/// What is wrong with a text, if anything is.
fn fault_in(alloc: Global, rt: &impl Abort, text: &[u8]) -> Option<TextFault> {
    assert!(rt; text.len() < 10000);
    read_schedule(alloc, text).err()
}

const HEAD: &str = "abstract 1\nf 1\nplan quorum\nclients 2\nservice echo\nlms 5\n";

#[test]
fn heads(rt: HostRuntime) {
    let alloc = rt.alloc();
    let cases = [
        ("", TextFault::NoEnd(1)),
        ("\n", TextFault::BadLine(1)),
        ("abstract 5\nf 1\n", TextFault::BadLine(1)),
        ("abstract 3\n", TextFault::NoEnd(2)),
        ("abstract 1\r\nf 1\r\n", TextFault::BadLine(1)),
        ("abstract 1\n", TextFault::NoEnd(2)),
        ("abstract 1\nf 3\n", TextFault::BadLine(2)),
        ("abstract 1\nf 01\n", TextFault::BadLine(2)),
        ("abstract 1\nf 2\nplan quorums\n", TextFault::BadLine(3)),
        ("abstract 1\nf 2\nplan Aliph\n", TextFault::BadLine(3)),
        ("abstract 1\nf 2\nplan zlight\n", TextFault::NoEnd(4)),
        ("abstract 1\nf 2\nplan chain\n", TextFault::NoEnd(4)),
        ("abstract 1\nf 2\nplan backup \n", TextFault::BadLine(3)),
        (
            "abstract 1\nf 1\nplan quorum\nclients 0\n",
            TextFault::BadLine(4),
        ),
        (
            "abstract 1\nf 1\nplan quorum\nclients 17\n",
            TextFault::BadLine(4),
        ),
        (
            "abstract 1\nf 1\nplan quorum\nclients 16\nservice KV\n",
            TextFault::BadLine(5),
        ),
        (
            "abstract 1\nf 1\nplan quorum\nclients 2\nservice kv\n",
            TextFault::NoEnd(6),
        ),
        (
            "abstract 1\nf 1\nplan quorum\nclients 2\nservice echo\nlms  5\n",
            TextFault::BadLine(6),
        ),
        (
            "abstract 1\nf 1\nplan quorum\nclients 2\nservice echo\nlms 6\n",
            TextFault::BadLine(6),
        ),
        (
            "abstract 1\nf 1\nplan quorum\nclients 2\nservice echo\nlms 10",
            TextFault::NoEnd(7),
        ),
    ];
    for (text, fault) in cases {
        assert!(rt;
            fault_in(alloc, &rt, text.as_bytes()) == Some(fault),
            "{text}"
        );
    }
}

/// The scheme of a schedule with this first line and this line `lms`, or what is wrong with it.
fn scheme_by(alloc: Global, first: &str, lms: &str) -> Option<Result<Scheme, TextFault>> {
    let text = format!(in alloc;
        "{first}\nf 1\nplan quorum\nclients 2\nservice echo\n{lms}\nrun\nend\n"
    ).ok()?;
    if text.len() > 1000 {
        return None;
    }
    Some(match read_schedule(alloc, text.as_bytes()) {
        Ok(schedule) => Ok(schedule.head.lms),
        Err(fault) => Err(fault),
    })
}

#[test]
fn versions(rt: HostRuntime) {
    let five = Scheme::Lms(Height::Five);
    let ten = Scheme::Lms(Height::Ten);
    let cases = [
        ("abstract 1", "lms 5", Ok(five)),
        ("abstract 1", "lms 10", Ok(ten)),
        ("abstract 1", "lms 20", Err(TextFault::BadLine(6))),
        ("abstract 2", "lms 5", Ok(five)),
        ("abstract 2", "lms 10", Ok(ten)),
        ("abstract 2", "lms 20", Ok(Scheme::Hss)),
        ("abstract 2", "lms 15", Err(TextFault::BadLine(6))),
        ("abstract 2", "lms 020", Err(TextFault::BadLine(6))),
        ("abstract 3", "lms 20", Err(TextFault::BadLine(7))),
        ("abstract 4", "lms 20", Err(TextFault::BadLine(7))),
        ("abstract 5", "lms 20", Err(TextFault::BadLine(1))),
        ("abstract 02", "lms 20", Err(TextFault::BadLine(1))),
    ];
    for (first, lms, read) in cases {
        let found = scheme_by(rt.alloc(), first, lms).expect(&rt, "memory");
        assert!(rt; found == read, "{first} {lms}");
    }
}

/// The plan of a cluster whose head names it so.
fn plan_by(alloc: Global, name: &str) -> Option<Plan> {
    let text = format!(in alloc;
        "abstract 1\nf 1\nplan {name}\nclients 1\nservice kv\nlms 10\nrun\nend\n"
    ).ok()?;
    if text.len() > 1000 {
        return None;
    }
    let schedule = read_schedule(alloc, text.as_bytes()).ok()?;
    Some(schedule.head.cluster.plan)
}

#[test]
fn plans(rt: HostRuntime) {
    let alloc = rt.alloc();
    let cases = [
        ("azyzzyva", Plan::AZyzzyva),
        ("aliph", Plan::Aliph),
        ("backup", Plan::Backup),
        ("zcert", Plan::ZCert),
    ];
    for (name, plan) in cases {
        assert!(rt; plan_by(alloc, name) == Some(plan));
    }
}

/// Checks that what follows the head is refused so.
fn refused(alloc: Global, rt: &impl Abort, cases: &[(&str, TextFault)]) -> Option<()> {
    for (rest, fault) in cases {
        let text = format!(in alloc; "{HEAD}{rest}").ok()?;
        assert!(rt;
            fault_in(alloc, rt, text.as_bytes()) == Some(*fault),
            "{rest}"
        );
    }
    Some(())
}

#[test]
fn lines(rt: HostRuntime) {
    let alloc = rt.alloc();
    let long =
        "invoke c0 aaaaaaaaaaaaaaaaaaaaaaaaaaaaaaaaaaaaaaaaaaaaaaaaaaaaaaaaaaaaaaaaaaaaaaaaaaaaaaaaaaaaaaaaaaaaaaaaaaaaaaaaaaaaaaaaaaaaaaaaaaaaaaaaa";
    let cases = [
        ("run", TextFault::NoEnd(8)),
        ("run\ndeliver 99", TextFault::NoEnd(9)),
        ("run\nend\n\n", TextFault::BadLine(9)),
        ("run\nend\nend", TextFault::BadLine(9)),
        ("run\n\nend", TextFault::BadLine(8)),
        ("run\ndeliver 99\nfoo\nend", TextFault::BadLine(9)),
        ("run\ndeliver +1", TextFault::BadLine(8)),
        ("run\ndeliver 01", TextFault::BadLine(8)),
        ("run\ndeliver 1 ", TextFault::BadLine(8)),
        ("run\ndeliver 1 r0 r0", TextFault::BadLine(8)),
        ("run\ndeliver 99 r9", TextFault::NoEnd(9)),
        ("run\ndeliver 1 r0.0", TextFault::BadLine(8)),
        ("run\ndeliver 1 r0.256", TextFault::BadLine(8)),
        ("run\ndeliver 18446744073709551616", TextFault::BadLine(8)),
        ("run\ntimeout r300", TextFault::BadLine(8)),
        ("run\ntimeout r9", TextFault::NoEnd(9)),
        ("run\ntimeout r1.0", TextFault::BadLine(8)),
        ("run\ntimeout r1.3", TextFault::NoEnd(9)),
        ("run\ntimeout r1.", TextFault::BadLine(8)),
        ("run\ntimeout C0", TextFault::BadLine(8)),
        ("run\ntimeout r00", TextFault::BadLine(8)),
        ("run\ninvoke c0 a\x7f", TextFault::BadLine(8)),
        ("run\ninvoke c0 a\tb", TextFault::BadLine(8)),
        ("run\ninvoke c0 ", TextFault::BadLine(8)),
        ("run\ninvoke c0", TextFault::BadLine(8)),
        ("run\ninvoke r0 x", TextFault::BadLine(8)),
        ("run\ninvoke r9 x", TextFault::BadLine(8)),
        (long, TextFault::BadLine(7)),
    ];
    refused(alloc, &rt, &cases).expect(&rt, "memory");
    let text = format!(in alloc; "{HEAD}run\n{long}").expect(&rt, "memory");
    assert!(rt; fault_in(alloc, &rt, text.as_bytes()) == Some(TextFault::BadLine(8)));
    let text = format!(in alloc;
        "{HEAD}run\ninvoke c99 a\ndeliver 0\ndeliver 18446744073709551615\nend"
    ).expect(&rt, "memory");
    assert!(rt; fault_in(alloc, &rt, text.as_bytes()) == None);
}

/// The head is that of a Quorum with one client, and no party is faulty.
fn expect_head(rt: &impl Abort, head: &Head) {
    let cluster = &head.cluster;
    assert!(rt; (cluster.f, cluster.clients, cluster.plan) == (1, 1, Plan::Quorum));
    assert!(rt; (head.service, head.lms) == (ServiceName::Echo, Scheme::Lms(Height::Five)));
    assert!(rt; cluster.every == 0);
    assert!(rt; head.seed == [0; 32]);
    assert!(rt; head.faulty.as_slice().len() == 0);
}

/// A command with blanks comes, and two deliveries.
fn expect_events(rt: &impl Abort, events: &[Event]) {
    match events {
        [
            Event::Invoke { core, command },
            Event::Deliver { packet: 1, .. },
            Event::Deliver {
                packet: 8,
                core: None,
            },
        ] => {
            assert!(rt; core.party == Party::Client(0));
            assert!(rt; command.as_slice() == b" x ".as_slice());
        }
        _ => assert!(rt; false),
    }
}

#[test]
fn reads(rt: HostRuntime) {
    let text =
        b"abstract 1\nf 1\nplan quorum\nclients 1\nservice echo\nlms 5\nrun\ninvoke c0  x \ndeliver 1\ndeliver 8\nend\n";
    read_is_spelled();
    read_is_in_form();
    spelled_is_read();
    one_reading();
    fault_is_first();
    assert!(rt; text.len() < 1000);
    match read_schedule(rt.alloc(), text) {
        Err(_) => assert!(rt; false),
        Ok(schedule) => {
            expect_head(&rt, &schedule.head);
            expect_events(&rt, schedule.events.as_slice());
        }
    }
}

#[test]
fn faulty_lines(rt: HostRuntime) {
    let cases = [
        ("faulty r1 0", TextFault::BadLine(7)),
        ("faulty r1 5", TextFault::BadLine(7)),
        ("faulty r1", TextFault::BadLine(7)),
        ("faulty r1.1 1", TextFault::BadLine(7)),
        ("faulty r4 1", TextFault::BadLine(7)),
        ("faulty c2 1", TextFault::BadLine(7)),
        ("faulty r1 2", TextFault::NoEnd(8)),
        ("faulty c1 1", TextFault::NoEnd(8)),
        ("faulty c1 1\nfaulty r1 2\nrun\nend", TextFault::BadLine(8)),
        ("faulty r1 2\nfaulty r1 2\nrun\nend", TextFault::BadLine(8)),
        ("faulty r2 1\nfaulty r1 1\nrun\nend", TextFault::BadLine(8)),
        ("run\nfaulty r1 2\nend", TextFault::BadLine(8)),
        (
            "faulty r1 2\nfaulty c1 1\nrun\nend\nend",
            TextFault::BadLine(11),
        ),
        (
            "faulty r1 2\nfaulty c1 1\nrun\ndeliver 99",
            TextFault::NoEnd(11),
        ),
        (
            "faulty r1 2\nfaulty c1 1\nrun\ntimeout r1.2",
            TextFault::NoEnd(11),
        ),
    ];
    refused(rt.alloc(), &rt, &cases).expect(&rt, "memory");
}

#[test]
fn injections(rt: HostRuntime) {
    let cases = [
        ("run\ninject r0", TextFault::BadLine(8)),
        ("run\ninject r0 ", TextFault::BadLine(8)),
        ("run\ninject r0 abc", TextFault::BadLine(8)),
        ("run\ninject r0 AB", TextFault::BadLine(8)),
        ("run\ninject c0 0A", TextFault::BadLine(8)),
        ("run\ninject r0 0g", TextFault::BadLine(8)),
        ("run\ninject r0.0 0a", TextFault::BadLine(8)),
        ("run\ninject r0.1 0abf", TextFault::NoEnd(9)),
    ];
    refused(rt.alloc(), &rt, &cases).expect(&rt, "memory");
}

#[test]
fn reads_twins(rt: HostRuntime) {
    let alloc = rt.alloc();
    let text = format!(in alloc;
        "{HEAD}faulty r0 1\nfaulty r3 4\nfaulty c0 2\nrun\ninvoke c0.2 x\ndeliver 1 r0.1\ninject c0 0a\ninject r9.255 00ff\nend\n"
    ).expect(&rt, "memory");
    assert!(rt; text.len() < 1000);
    match read_schedule(alloc, text.as_bytes()) {
        Err(_) => assert!(rt; false),
        Ok(schedule) => {
            has_twins(&rt, schedule.head.faulty.as_slice());
            has_twin_events(&rt, schedule.events.as_slice());
        }
    }
}

/// Checks that these are the faulty parties of the schedule with twins, and how many cores each has.
fn has_twins(rt: &impl Abort, faulty: &[(Party, u8)]) {
    let wanted = [
        (Party::Replica(0), 1),
        (Party::Replica(3), 4),
        (Party::Client(0), 2),
    ];
    assert!(rt; faulty == wanted.as_slice());
}

/// Checks that these are the events of the schedule with twins.
fn has_twin_events(rt: &impl Abort, events: &[Event]) {
    match events {
        [
            Event::Invoke {
                core: Core {
                    party: Party::Client(0),
                    twin: Some(2),
                },
                command,
            },
            Event::Deliver {
                packet: 1,
                core: Some(
                    Core {
                        party: Party::Replica(0),
                        twin: Some(1),
                    },
                ),
            },
            Event::Inject {
                core: Core {
                    party: Party::Client(0),
                    twin: None,
                },
                bytes: one,
            },
            Event::Inject {
                core: Core {
                    party: Party::Replica(9),
                    twin: Some(255),
                },
                bytes: two,
            },
        ] => {
            assert!(rt; command.as_slice() == b"x".as_slice());
            assert!(rt; one.as_slice() == [10].as_slice());
            assert!(rt; two.as_slice() == [0, 255].as_slice());
        }
        _ => assert!(rt; false),
    }
}

/// A list of three entries.
fn three(alloc: Global) -> Option<Items<(u16, u64)>> {
    let mut entries = Items::new(alloc);
    entries.push((0, 1)).ok()?;
    entries.push((1, 1)).ok()?;
    entries.push((2, 1)).ok()?;
    Some(entries)
}

/// A reply.
fn reply(text: &[u8]) -> ArrayVec<u8, 72> {
    let mut reply = ArrayVec::new();
    let _ = reply.try_extend_from_slice(text);
    reply
}

/// Writes a line, and lets it go.
fn write(alloc: Global, out: &mut Vec<u8>, line: Line) -> Result<(), OutOfMemory> {
    let written = write_seen(alloc, out, &line);
    drop(line);
    written
}

fn write_refused(alloc: Global, out: &mut Vec<u8>) -> Result<(), OutOfMemory> {
    for (event, party, cause) in [
        (9, Party::Client(0), OpenCause::Tag),
        (18, Party::Replica(0), OpenCause::Bad),
        (18, Party::Replica(0), OpenCause::Kind),
    ] {
        let line = Line::Refused {
            event,
            party,
            cause,
        };
        write(alloc, out, line)?;
    }
    Ok(())
}

fn write_histories(alloc: Global, out: &mut Vec<u8>) -> Option<()> {
    let cert = Line::Cert {
        event: 22,
        party: Party::Client(0),
        instance: 1,
        start: 0,
        entries: three(alloc)?,
    };
    write(alloc, out, cert).ok()?;
    let init = Line::Init {
        event: 23,
        replica: 0,
        instance: 2,
        start: 0,
        entries: three(alloc)?,
    };
    write(alloc, out, init).ok()
}

fn write_others(alloc: Global, out: &mut Vec<u8>) -> Result<(), OutOfMemory> {
    let invoked = Line::Invoked {
        event: 31,
        client: 0,
        instance: 1,
        stamp: 2,
    };
    write(alloc, out, invoked)?;
    let commit = Line::Commit {
        event: 9,
        client: 0,
        instance: 1,
        stamp: 1,
        n: 1,
        reply: reply(b"put a 1"),
    };
    write(alloc, out, commit)?;
    let spent = Line::Spent {
        event: 33,
        replica: 1,
    };
    write(alloc, out, spent)
}

fn write_premises(alloc: Global, out: &mut Vec<u8>) -> Result<(), OutOfMemory> {
    let forged = Premise::Broken {
        event: 9,
        breach: Breach::Forged,
        party: Party::Replica(3),
    };
    let faulty = Premise::Broken {
        event: 0,
        breach: Breach::Faulty,
        party: Party::Replica(1),
    };
    write_premise(alloc, out, &Premise::Held)?;
    write_premise(alloc, out, &forged)?;
    write_premise(alloc, out, &faulty)
}

/// Writes a report.
fn write_all(alloc: Global, out: &mut Vec<u8>) -> Option<()> {
    write_refused(alloc, out).ok()?;
    write_histories(alloc, out)?;
    write_others(alloc, out).ok()?;
    write_log(alloc, out, 1, 1, 0, &[(0, 1)]).ok()?;
    write_log(alloc, out, 2, 1, 0, &[]).ok()?;
    write_premises(alloc, out).ok()?;
    write_end(alloc, out, 35, 62).ok()
}

#[test]
fn writes(rt: HostRuntime) {
    let mut out = Vec::new(rt.alloc());
    write_all(rt.alloc(), &mut out).expect(&rt, "memory");
    let want =
        b"refused 9 c0 tag\nrefused 18 r0 bad\nrefused 18 r0 kind\ncert 22 c0 1 c0.1,c1.1,c2.1\ninit 23 r0 2 c0.1,c1.1,c2.1\ninvoked 31 c0 1 2\ncommit 9 c0 1 1 1 put a 1\nspent 33 r1\nlog r1 1 c0.1\nlog r2 1 -\npremise held\npremise broken 9 forged r3\npremise broken 0 faulty r1\nend 35 62\n";
    assert!(rt; out.as_slice() == want.as_slice());
}

fn one(alloc: Global) -> Option<Items<(u16, u64)>> {
    let mut entries = Items::new(alloc);
    entries.push((0, 3)).ok()?;
    Some(entries)
}

/// The lines of lists that have forgotten their first two entries.
fn write_trimmed(alloc: Global, out: &mut Vec<u8>) -> Option<()> {
    let cert = Line::Cert {
        event: 38,
        party: Party::Client(0),
        instance: 1,
        start: 2,
        entries: Items::new(alloc),
    };
    write(alloc, out, cert).ok()?;
    let init = Line::Init {
        event: 39,
        replica: 0,
        instance: 2,
        start: 2,
        entries: one(alloc)?,
    };
    write(alloc, out, init).ok()?;
    write_log(alloc, out, 2, 2, 2, &[(0, 3)]).ok()
}

#[test]
fn writes_what_is_forgotten(rt: HostRuntime) {
    let mut out = Vec::new(rt.alloc());
    write_trimmed(rt.alloc(), &mut out).expect(&rt, "memory");
    let want = b"cert 38 c0 1 2:-\ninit 39 r0 2 2:c0.3\nlog r2 2 2:c0.3\n";
    assert!(rt; out.as_slice() == want.as_slice());
}
