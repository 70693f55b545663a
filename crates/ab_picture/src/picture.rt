//! The parts of a picture.

use ab_num::{Cluster, Party};
use ab_text::{Core, Event, Line, OpenCause, Premise};
use arrayvec::ArrayVec;

/// A packet: to whom it was sent, and the code of its message, which is its first byte.
#[derive(Clone, Copy)]
pub struct SentPacket {
    pub to: Party,
    pub code: u8,
}

/// What is told of a run: its events in their order, how many packets there were after each of them, the
/// packets, the lines of its report and the premise line.
#[derive(Drop)]
pub struct Tale<'a> {
    pub events: &'a [Event],
    pub counts: &'a [u64],
    pub parcels: &'a [SentPacket],
    pub lines: &'a [Line],
    pub premise: Premise,
}

/// The lifeline of a core.
#[derive(Clone, Copy)]
pub struct Lane {
    pub core: Core,
    pub faulty: bool,
}

/// What sets an event off.
#[derive(Clone, Copy)]
pub enum Trigger {
    Invoked,
    Delivered,
    TimedOut,
    Injected,
}

/// An event, at a core, and whether a panic is sent in it.
#[derive(Clone, Copy)]
pub struct Moment {
    pub core: Option<Core>,
    pub trigger: Trigger,
    pub panics: bool,
}

/// A packet, from the event that sent it to an event that took it.
#[derive(Clone, Copy)]
pub struct Arrow {
    pub packet: u64,
    pub code: u8,
    pub from: u32,
    pub to: u32,
}

/// A packet that no event took, from the event that sent it.
#[derive(Clone, Copy)]
pub struct Stub {
    pub packet: u64,
    pub code: u8,
    pub from: u32,
    pub to: Party,
}

/// What a line of a report tells of its party.
#[derive(Drop)]
pub enum Sign {
    Invoked {
        instance: u32,
        stamp: u64,
    },
    Committed {
        instance: u32,
        n: u16,
        reply: ArrayVec<u8, 72>,
    },
    Certified {
        instance: u32,
    },
    Entered {
        instance: u32,
    },
    Refused(OpenCause),
    Spent,
}

/// A line of a report, at its event and its party.
#[derive(Drop)]
pub struct Mark {
    pub event: u32,
    pub party: Party,
    pub sign: Sign,
}

/// A picture of a run, or of its beginning.
#[derive(Drop)]
pub struct Picture {
    pub cluster: Cluster,
    pub lanes: Vec<Lane>,
    pub moments: Vec<Moment>,
    pub arrows: Vec<Arrow>,
    pub stubs: Vec<Stub>,
    pub marks: Vec<Mark>,
    pub premise: Premise,
}
