//! Each object through its trait, with one call that fails in mid-stream.

ghost use Rattle.std.specs.Prelude.{length, ◌≤◌};

use ab_io::{
    Clock, Failed, Got, LONGEST_DATAGRAM, Link, MemClock, MemLink, MemSink, MemSource, Refused,
    Sink, Source, SureSink, SureSource,
};
use std::alloc::Global;
use std::process::Abort;

#[test]
fn source_is_read_to_its_end(rt: HostRuntime) {
    let alloc = rt.alloc();
    let bytes = vec![in alloc; 1u8, 2, 3].expect(&rt, "memory");
    let mut source = MemSource::new(bytes, vec![in alloc; 2u64].expect(&rt, "memory"));
    let mut buf = [0u8; 2];
    let first = source.take(&mut buf) == Ok(2) && buf == [1, 2];
    let failed = source.take(&mut buf) == Err(Failed);
    let last = source.take(&mut buf) == Ok(1) && buf[0] == 3;
    let end = source.take(&mut buf) == Ok(0);
    drop(source);
    assert!(rt; first && failed && last && end);
}

#[test]
fn sure_source_is_read_to_its_end(rt: HostRuntime) {
    let alloc = rt.alloc();
    let mut source = SureSource::new(vec![in alloc; 7u8, 8].expect(&rt, "memory"));
    let mut buf = [0u8; 2];
    let whole = source.take(&mut buf) == Ok(2) && buf == [7, 8];
    let end = source.take(&mut buf) == Ok(0);
    drop(source);
    assert!(rt; whole && end);
}

#[test]
fn sinks_hold_what_they_took(rt: HostRuntime) {
    let alloc = rt.alloc();
    let mut sink = MemSink::new(alloc, vec![in alloc; 2u64].expect(&rt, "memory"));
    let first = sink.put(b"ab") == Ok(2);
    let refused = sink.put(b"lost") == Err(Refused::Failed);
    let third = sink.put(b"c") == Ok(1);
    let kept = sink.bytes() == b"abc".as_slice();
    drop(sink);
    assert!(rt; first && refused && third && kept);

    let mut sure = SureSink::new(alloc);
    let taken = sure.put(b"xyz") == Ok(3) && sure.bytes() == b"xyz".as_slice();
    drop(sure);
    assert!(rt; taken);
}

/// A link to which two datagrams come, and then one that is too long; the second time it fails.
fn link_of_three(rt: &impl Abort, alloc: Global) -> MemLink {
    let datagrams = vec![in alloc;
        vec![in alloc; 5u8, 6].expect(rt, "memory"),
        Vec::new(alloc),
        Vec::from_elem(alloc, 9u8, 8210).expect(rt, "memory"),
    ]
    .expect(rt, "memory");
    let second = vec![in alloc; 2u64].expect(rt, "memory");
    MemLink::new(alloc, datagrams, Vec::new(alloc), second, Vec::new(alloc))
}

/// Whether what comes first of this link is these, in turn, through the trait.
fn receives<L: Link>(link: &mut L, buf: &mut [u8], all: &[Got]) -> bool
    requires { 8209 ≤ length buf.old }
{
    let mut is_so = true;
    for want in all {
        is_so = is_so && link.recv(buf, 1) == *want;
    }
    is_so
}

#[test]
fn link_gives_each_datagram_once(rt: HostRuntime) {
    let alloc = rt.alloc();
    let mut buf = Vec::from_elem(alloc, 0u8, LONGEST_DATAGRAM).expect(&rt, "memory");
    let mut link = link_of_three(&rt, alloc);
    let first = receives(&mut link, &mut buf, &[Got::Bytes(2)]);
    let is_there = buf.starts_with(&[5, 6, 0]);
    let rest = [Got::Failed, Got::Bytes(0), Got::Bytes(8209), Got::Quiet];
    let others = receives(&mut link, &mut buf, &rest);
    drop(link);
    assert!(rt; first && is_there && others);
}

/// Whether an opening fails, and then a sending, once each.
fn fails_once_each(link: &mut MemLink) -> bool {
    let refused = link.open(9) == Err(Failed);
    let opened = link.open(9) == Ok(());
    let first = link.send(7, b"first") == Ok(());
    let lost = link.send(7, b"lost") == Err(Refused::Failed);
    let third = link.send(8, b"third") == Ok(());
    refused && opened && first && lost && third
}

/// Whether what was sent is the other two.
fn is_sent(sent: &[(u16, Vec<u8>)]) -> bool {
    let [first, third] = sent else {
        return false;
    };
    let ports = first.0 == 7 && third.0 == 8;
    ports && first.1.as_slice() == b"first".as_slice() && third.1.as_slice() == b"third".as_slice()
}

#[test]
fn link_keeps_what_was_sent(rt: HostRuntime) {
    let alloc = rt.alloc();
    let first = vec![in alloc; 1u64].expect(&rt, "memory");
    let second = vec![in alloc; 2u64].expect(&rt, "memory");
    let mut link = MemLink::new(alloc, Vec::new(alloc), first, Vec::new(alloc), second);
    let failed = fails_once_each(&mut link);
    let kept = is_sent(link.sent());
    drop(link);
    assert!(rt; failed && kept);
}

#[test]
fn clock_repeats_its_last_reading(rt: HostRuntime) {
    let alloc = rt.alloc();
    let mut clock = MemClock::new(vec![in alloc; 10u64, 25].expect(&rt, "memory"));
    assert!(rt; clock.now() == 10);
    assert!(rt; clock.now() == 25);
    assert!(rt; clock.now() == 25);
    assert!(rt; MemClock::new(Vec::new(alloc)).now() == 0);
}
