//! The text of a small picture.

ghost use Rattle.std.specs.Prelude.{◌≡◌, IfOk, length};

use ab_num::{Cluster, OutOfMemory, Party, Plan};
use ab_picture::{Picture, SentPacket, Tale, compose, svg};
use ab_text::{Breach, Core, Event, Line, Premise};
use arrayvec::ArrayVec;
use std::alloc::Global;
use std::test::Fail;

fn events(alloc: Global) -> Result<Vec<Event>, OutOfMemory>
    ensures { IfOk result (λ v. length v.items ≡ 2) }
{
    let mut events = Vec::new(alloc);
    events.push(Event::Invoke {
        core: Core {
            party: Party::Client(0),
            twin: None,
        },
        command: ArrayVec::new(),
    })?;
    events.push(Event::Deliver {
        packet: 1,
        core: None,
    })?;
    Ok(events)
}

fn lines(alloc: Global) -> Result<Vec<Line>, OutOfMemory> {
    let mut reply = ArrayVec::new();
    let _ = reply.try_extend_from_slice(b"a <&>\"'~\x7f\x00");
    let mut lines = Vec::new(alloc);
    lines.push(Line::Commit {
        event: 2,
        client: 0,
        instance: 1,
        stamp: 1,
        n: 7,
        reply,
    })?;
    Ok(lines)
}

/// c0 sends a REQ to r0, which is delivered, and commits at once.
fn picture(alloc: Global) -> Result<Picture, Fail>
    ensures { IfOk result (λ p. length p.moments.items ≡ 2) }
{
    let events = events(alloc)?;
    let lines = lines(alloc)?;
    let cluster = Cluster::new(1, 1, Plan::Quorum, 0).ok_or("bounds")?;
    let parcels = [SentPacket {
        to: Party::Replica(0),
        code: 1,
    }];
    let told = Tale {
        events: events.as_slice(),
        counts: &[1, 1],
        parcels: &parcels,
        lines: lines.as_slice(),
        premise: Premise::Broken {
            event: 2,
            breach: Breach::Forged,
            party: Party::Replica(3),
        },
    };
    Ok(compose(alloc, &cluster, &[], &told)?)
}

fn text(alloc: Global, all: u32) -> Result<String, Fail> {
    let picture = picture(alloc)?;
    let bytes = svg(alloc, &picture, all)?;
    match String::from_utf8(bytes) {
        Ok(text) => Ok(text),
        Err(_) => Err(Fail::from("no text")),
    }
}

#[test]
fn parts_are_drawn(rt: HostRuntime) -> Result<(), Fail> {
    let text = text(rt.alloc(), 2)?;
    assert!(rt;
        text.as_str()
            .starts_with("<svg xmlns=\"http://www.w3.org/2000/svg\"")
    );
    assert!(rt;
        text.as_str().ends_with(
            "c0 commits number 7 in instance 1: a &lt;&amp;&gt;&quot;'~??</text>\n</svg>\n"
        )
    );
    assert!(rt;
        text.as_str()
            .contains("<path class=\"arrow\" d=\"M150 250Q206 274 262 274\"/>")
    );
    assert!(rt; text.as_str().contains(">REQ 1</text>"));
    assert!(rt;
        text.as_str()
            .contains("<text class=\"head red\" x=\"598\" y=\"202\">r3</text>")
    );
    assert!(rt; !text.as_str().contains("are drawn"));
    Ok(())
}

#[test]
fn a_cut_is_told(rt: HostRuntime) -> Result<(), Fail> {
    let text = text(rt.alloc(), 5000)?;
    assert!(rt; text.as_str().contains("Events 1 to 2 of 5000 are drawn."));
    Ok(())
}
