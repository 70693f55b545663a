//! The picture of a small run, worked out by hand.

ghost use Rattle.std.specs.Prelude.{◌≡◌, IfOk, length};

use ab_num::{Cluster, OutOfMemory, Party, Plan};
use ab_picture::{Picture, SentPacket, Tale, compose};
use ab_text::{Core, Event, Items, Line, Premise};
use arrayvec::ArrayVec;
use std::alloc::Global;

fn own(party: Party) -> Core {
    Core { party, twin: None }
}

/// c0 asks r0 and r1; r0 answers, and c0 takes the answer; bytes are handed to the twin of r1.
fn events(alloc: Global) -> Result<Vec<Event>, OutOfMemory>
    ensures { IfOk result (λ v. length v.items ≡ 4) }
{
    let mut events = Vec::new(alloc);
    events.push(Event::Invoke {
        core: own(Party::Client(0)),
        command: ArrayVec::new(),
    })?;
    events.push(Event::Deliver {
        packet: 1,
        core: None,
    })?;
    events.push(Event::Deliver {
        packet: 3,
        core: None,
    })?;
    events.push(Event::Inject {
        core: Core {
            party: Party::Replica(1),
            twin: Some(2),
        },
        bytes: Items::new(alloc),
    })?;
    Ok(events)
}

fn lines(alloc: Global) -> Result<Vec<Line>, OutOfMemory> {
    let mut lines = Vec::new(alloc);
    lines.push(Line::Invoked {
        event: 1,
        client: 0,
        instance: 1,
        stamp: 1,
    })?;
    lines.push(Line::Spent {
        event: 3,
        replica: 2,
    })?;
    Ok(lines)
}

fn picture(alloc: Global) -> Option<Picture> {
    let events = events(alloc).ok()?;
    let lines = lines(alloc).ok()?;
    let cluster = Cluster::new(1, 1, Plan::Quorum, 0)?;
    let parcels = [
        SentPacket {
            to: Party::Replica(0),
            code: 1,
        },
        SentPacket {
            to: Party::Replica(1),
            code: 5,
        },
        SentPacket {
            to: Party::Client(0),
            code: 3,
        },
    ];
    let told = Tale {
        events: events.as_slice(),
        counts: &[2, 3, 3, 3],
        parcels: &parcels,
        lines: lines.as_slice(),
        premise: Premise::Held,
    };
    compose(alloc, &cluster, &[(Party::Replica(1), 2)], &told).ok()
}

#[test]
fn deliveries_have_arrows(rt: HostRuntime) {
    let picture = picture(rt.alloc()).expect(&rt, "memory");
    assert!(rt; picture.arrows.len() == 2);
    let first = picture.arrows.first().expect(&rt, "no arrow");
    assert!(rt; (first.packet, first.code) == (1, 1));
    assert!(rt; (first.from, first.to) == (1, 2));
    let last = picture.arrows.last().expect(&rt, "no arrow");
    assert!(rt; (last.packet, last.code) == (3, 3));
    assert!(rt; (last.from, last.to) == (2, 3));
}

#[test]
fn others_have_stubs(rt: HostRuntime) {
    let picture = picture(rt.alloc()).expect(&rt, "memory");
    assert!(rt; picture.stubs.len() == 1);
    let stub = picture.stubs.first().expect(&rt, "no stub");
    assert!(rt; (stub.packet, stub.code) == (2, 5));
    assert!(rt; stub.from == 1);
    assert!(rt; stub.to == Party::Replica(1));
}

#[test]
fn events_are_at_their_cores(rt: HostRuntime) {
    let picture = picture(rt.alloc()).expect(&rt, "memory");
    assert!(rt; picture.moments.len() == 4);
    let asked = picture.moments.first().expect(&rt, "no event");
    assert!(rt; asked.core == Some(own(Party::Client(0))));
    assert!(rt; asked.panics);
    let taken = picture.moments.get(1).expect(&rt, "no event");
    assert!(rt; taken.core == Some(own(Party::Replica(0))));
    assert!(rt; !taken.panics);
}

#[test]
fn twins_stand_side_by_side(rt: HostRuntime) {
    let picture = picture(rt.alloc()).expect(&rt, "memory");
    assert!(rt; picture.lanes.len() == 6);
    for (place, twin) in [(2usize, 1u8), (3, 2)] {
        let lane = picture.lanes.get(place).expect(&rt, "no lane");
        assert!(rt; lane.faulty);
        assert!(rt; lane.core.party == Party::Replica(1));
        assert!(rt; lane.core.twin == Some(twin));
    }
}

#[test]
fn lines_have_marks(rt: HostRuntime) {
    let picture = picture(rt.alloc()).expect(&rt, "memory");
    assert!(rt; picture.marks.len() == 2);
    let last = picture.marks.last().expect(&rt, "no mark");
    assert!(rt; last.event == 3);
    assert!(rt; last.party == Party::Replica(2));
}
