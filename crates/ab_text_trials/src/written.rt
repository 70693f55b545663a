//! A text that was read is written again.

ghost use Rattle.std.specs.Prelude.{◌<◌, ◌^◌, length};

use ab_num::{Cluster, Height, Plan, Scheme, ServiceName};
use ab_text::{Head, Items, Schedule, read_schedule, write_schedule};
use std::alloc::Global;

const TEXT: &[u8] =
    b"abstract 1\nf 1\nplan aliph\nclients 2\nservice kv\nlms 10\nfaulty r3 2\nfaulty c1 1\nrun\ninvoke c0 put a 1\ninvoke c1.1  ~\ndeliver 1\ndeliver 4 r3.2\ntimeout r0\ninject r1 00ff10\nend\n";

/// The same schedule, spelled with the other first line.
const SECOND: &[u8] =
    b"abstract 2\nf 1\nplan aliph\nclients 2\nservice kv\nlms 10\nfaulty r3 2\nfaulty c1 1\nrun\ninvoke c0 put a 1\ninvoke c1.1  ~\ndeliver 1\ndeliver 4 r3.2\ntimeout r0\ninject r1 00ff10\nend\n";

const TWO_LEVELS: &[u8] =
    b"abstract 2\nf 1\nplan aliph\nclients 2\nservice kv\nlms 20\nrun\ndeliver 1\nend\n";

const THIRD: &[u8] =
    b"abstract 3\nf 1\nplan aliph\nclients 2\nservice kv\nlms 20\ncheckpoint 0\nrun\ndeliver 1\nend\n";

const FOURTH: &[u8] =
    b"abstract 4\nf 1\nplan aliph\nclients 2\nservice kv\nlms 20\ncheckpoint 0\nseed 0000000000000000000000000000000000000000000000000000000000000000\nrun\ndeliver 1\nend\n";

const SEEDED: &[u8] =
    b"abstract 4\nf 1\nplan aliph\nclients 2\nservice kv\nlms 5\ncheckpoint 0\nseed 000102030405060708090a0b0c0d0e0f101112131415161718191a1b1c1d1eff\nfaulty r3 2\nrun\ndeliver 1\nend\n";

fn rewritten(alloc: Global, text: &[u8]) -> Option<Vec<u8>>
    requires { length text.now < 2 ^ 31 }
{
    let schedule = read_schedule(alloc, text).ok()?;
    write_schedule(alloc, &schedule).ok()
}

#[test]
fn what_was_read_is_written(rt: HostRuntime) {
    let alloc = rt.alloc();
    let text = rewritten(alloc, TEXT).expect(&rt, "memory");
    assert!(rt; text.as_slice() == TEXT);
    // One level is written with the first version, and two levels with the second.
    let text = rewritten(alloc, SECOND).expect(&rt, "memory");
    assert!(rt; text.as_slice() == TEXT);
    let text = rewritten(alloc, TWO_LEVELS).expect(&rt, "memory");
    assert!(rt; text.as_slice() == TWO_LEVELS);
    // The line feed at the end may be missing in what is read.
    let text = rewritten(alloc, &TEXT[..TEXT.len() - 1]).expect(&rt, "memory");
    assert!(rt; text.as_slice() == TEXT);
}

#[test]
fn the_least_first_line_is_written(rt: HostRuntime) {
    let alloc = rt.alloc();
    // What a later version says is left out, if it is what holds without it.
    let text = rewritten(alloc, THIRD).expect(&rt, "memory");
    assert!(rt; text.as_slice() == TWO_LEVELS);
    let text = rewritten(alloc, FOURTH).expect(&rt, "memory");
    assert!(rt; text.as_slice() == TWO_LEVELS);
    let text = rewritten(alloc, SEEDED).expect(&rt, "memory");
    assert!(rt; text.as_slice() == SEEDED);
}

/// The text of a schedule without events.
fn text_by(alloc: Global, every: u16, seed: [u8; 32]) -> Option<Vec<u8>> {
    let schedule = Schedule {
        head: Head {
            cluster: Cluster::new(2, 16, Plan::ZLight, every)?,
            service: ServiceName::Echo,
            lms: Scheme::Lms(Height::Ten),
            seed,
            faulty: Items::new(alloc),
        },
        events: Items::new(alloc),
    };
    write_schedule(alloc, &schedule).ok()
}

#[test]
fn checkpoints_and_seeds_are_written(rt: HostRuntime) {
    let alloc = rt.alloc();
    let text = text_by(alloc, 0, [0; 32]).expect(&rt, "memory");
    assert!(rt;
        text.as_slice()
            == b"abstract 1\nf 2\nplan zlight\nclients 16\nservice echo\nlms 10\nrun\nend\n".as_slice()
    );
    let text = text_by(alloc, 128, [0; 32]).expect(&rt, "memory");
    assert!(rt;
        text.as_slice()
            == b"abstract 3\nf 2\nplan zlight\nclients 16\nservice echo\nlms 10\ncheckpoint 128\nrun\nend\n".as_slice()
    );
    let text = text_by(alloc, 1, [0xa1; 32]).expect(&rt, "memory");
    assert!(rt;
        text.as_slice()
            == b"abstract 4\nf 2\nplan zlight\nclients 16\nservice echo\nlms 10\ncheckpoint 1\nseed a1a1a1a1a1a1a1a1a1a1a1a1a1a1a1a1a1a1a1a1a1a1a1a1a1a1a1a1a1a1a1a1\nrun\nend\n".as_slice()
    );
}
