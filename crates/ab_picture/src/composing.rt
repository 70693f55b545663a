//! A picture is composed from what is told of a run.

ghost use Rattle.std.specs.Prelude.{◌≡◌, ◌^◌, ◌<◌, [], ◌++◌, IfOk, OnOk, length};
ghost use Rattle.std.specs.List.{cons_option};
ghost use Rattle.std.specs.Option.{option_map};
ghost use Rattle.ab_picture.specs.Pictures.{parcel_at, code_at, sender_of, is_delivered, is_delivery, arrow_of, arrow_to, arrows_of, stub_at, stub_of, stubs_of, core_of, trigger_of, count_at, has_panic, moment_of, moments_of};
ghost use Rattle.ab_picture.specs.Composed.{IsPicture, tale_of};

use crate::lanes::lanes;
use crate::marks::marks;
use crate::picture::{Arrow, Moment, Picture, SentPacket, Stub, Tale, Trigger};
use ab_num::{Cluster, OutOfMemory, Party};
use ab_text::{Core, Event};
use std::alloc::Global;

/// The code of a PANIC.
const PANIC: u8 = 5;

/// The packet of this number, counted from 1.
fn parcel_at(parcels: &[SentPacket], number: u64) -> Option<&SentPacket>
    ensures { option_map (λ p. p.now) result ≡ parcel_at parcels.now number }
{
    let index = number.checked_sub(1)?;
    parcels.get(index as usize)
}

/// The event that sent the packet of this number: the first after which there are so many.
fn sender_of(counts: &[u64], number: u64) -> u32
    requires { length counts.now < 2 ^ 31 }
    ensures { result ≡ sender_of counts.now number }
{
    let before = counts.iter().filter(|count| **count < number).count();
    before as u32 + 1
}

/// The code of the packet of this number. 0 where there is none.
fn code_at(parcels: &[SentPacket], number: u64) -> u8
    ensures { result ≡ code_at parcels.now number }
{
    match parcel_at(parcels, number) {
        Some(parcel) => parcel.code,
        None => 0,
    }
}

/// Where an event is. None where it delivers a packet that there isn't.
fn core_of(parcels: &[SentPacket], event: &Event) -> Option<Core>
    ensures { result ≡ core_of parcels.now event.now }
{
    match event {
        Event::Invoke { core, .. } => Some(*core),
        Event::Timeout { core } => Some(*core),
        Event::Inject { core, .. } => Some(*core),
        Event::Deliver {
            core: Some(core),
            ..
        } => Some(*core),
        Event::Deliver { packet, core: None } => {
            let parcel = parcel_at(parcels, *packet)?;
            Some(Core {
                party: parcel.to,
                twin: None,
            })
        }
    }
}

/// What sets an event off.
fn trigger_of(event: &Event) -> Trigger
    ensures { result ≡ trigger_of event.now }
{
    match event {
        Event::Invoke { .. } => Trigger::Invoked,
        Event::Deliver { .. } => Trigger::Delivered,
        Event::Timeout { .. } => Trigger::TimedOut,
        Event::Inject { .. } => Trigger::Injected,
    }
}

/// How many packets there were after so many events.
fn count_at(counts: &[u64], events: usize) -> usize
    ensures { result ≡ count_at counts.now events }
{
    match events.checked_sub(1) {
        None => 0,
        Some(last) => match counts.get(last) {
            None => 0,
            Some(count) => *count as usize,
        },
    }
}

/// Whether a PANIC is among the packets behind the first `before`, up to the first `now`.
fn has_panic(parcels: &[SentPacket], before: usize, now: usize) -> bool
    ensures { result ≡ has_panic parcels.now before now }
{
    parcels
        .iter()
        .skip(before)
        .take(now.saturating_sub(before))
        .any(|parcel| parcel.code == PANIC)
}

/// The event after so many others.
fn moment_of(told: &Tale, earlier: usize, event: &Event) -> Moment
    requires { earlier < 2 ^ 31 }
    ensures { result ≡ moment_of told.now.counts.now told.now.parcels.now earlier event.now }
{
    let before = count_at(told.counts, earlier);
    let now = count_at(told.counts, earlier + 1);
    Moment {
        core: core_of(told.parcels, event),
        trigger: trigger_of(event),
        panics: has_panic(told.parcels, before, now),
    }
}

/// Adds a value, if there is one.
fn keep<T: Drop>(all: &mut Vec<T>, value: Option<T>) -> Result<(), OutOfMemory>
    ensures { OnOk result (all.new.items ≡ all.old.items ++ cons_option value []) }
{
    match value {
        None => Ok(()),
        Some(value) => {
            all.push(value)?;
            Ok(())
        }
    }
}

/// The events of a run, one after another.
fn moments(alloc: Global, told: &Tale) -> Result<Vec<Moment>, OutOfMemory>
    requires { length told.now.events.now < 2 ^ 31 }
    ensures moments { IfOk result (λ v. v.items ≡ moments_of told.now.events.now told.now.counts.now told.now.parcels.now) }
    ensures count { IfOk result (λ v. length v.items ≡ length told.now.events.now) }
{
    let mut moments = Vec::new(alloc);
    let events = told.events;
    for (i, event) in events.iter().enumerate() {
        moments.push(moment_of(told, i, event))?;
    }
    Ok(moments)
}

/// The arrow of a packet to the event of this number.
fn arrow_to(told: &Tale, number: u32, packet: u64) -> Arrow
    requires { length told.now.counts.now < 2 ^ 31 }
    ensures { result ≡ arrow_to told.now.counts.now told.now.parcels.now number packet }
{
    Arrow {
        packet,
        code: code_at(told.parcels, packet),
        from: sender_of(told.counts, packet),
        to: number,
    }
}

/// The arrow of the event of this number, if it delivers a packet.
fn arrow_of(told: &Tale, number: u32, event: &Event) -> Option<Arrow>
    requires { length told.now.counts.now < 2 ^ 31 }
    ensures { result ≡ arrow_of told.now.counts.now told.now.parcels.now number event.now }
{
    match event {
        Event::Deliver { packet, .. } => Some(arrow_to(told, number, *packet)),
        Event::Invoke { .. } => None,
        Event::Timeout { .. } => None,
        Event::Inject { .. } => None,
    }
}

/// An arrow for each delivery, in the order of the events.
fn arrows(alloc: Global, told: &Tale) -> Result<Vec<Arrow>, OutOfMemory>
    requires events { length told.now.events.now < 2 ^ 31 }
    requires counts { length told.now.counts.now < 2 ^ 31 }
    ensures { IfOk result (λ v. v.items ≡ arrows_of told.now.events.now told.now.counts.now told.now.parcels.now) }
{
    let mut arrows = Vec::new(alloc);
    let events = told.events;
    for (i, event) in events.iter().enumerate() {
        let arrow = arrow_of(told, i as u32 + 1, event);
        keep(&mut arrows, arrow)?;
    }
    Ok(arrows)
}

/// Whether an event delivers the packet of this number.
fn is_delivery(event: &Event, number: u64) -> bool
    ensures { result ≡ is_delivery number event.now }
{
    match event {
        Event::Deliver { packet, .. } => *packet == number,
        _ => false,
    }
}

/// Whether an event delivers the packet of this number.
fn is_delivered(events: &[Event], number: u64) -> bool
    ensures { result ≡ is_delivered events.now number }
{
    events.iter().any(|event| is_delivery(event, number))
}

/// The stub of the packet of this number.
fn stub_at(counts: &[u64], number: u64, parcel: &SentPacket) -> Stub
    requires { length counts.now < 2 ^ 31 }
    ensures { result ≡ stub_at counts.now number parcel.now }
{
    Stub {
        packet: number,
        code: parcel.code,
        from: sender_of(counts, number),
        to: parcel.to,
    }
}

/// The stub of the packet of this number, if no event delivers it.
fn stub_of(told: &Tale, number: u64, parcel: &SentPacket) -> Option<Stub>
    requires { length told.now.counts.now < 2 ^ 31 }
    ensures { result ≡ stub_of told.now.events.now told.now.counts.now number parcel.now }
{
    if is_delivered(told.events, number) {
        None
    } else {
        Some(stub_at(told.counts, number, parcel))
    }
}

/// A stub for each packet that no event delivers, in the order of the packets.
fn stubs(alloc: Global, told: &Tale) -> Result<Vec<Stub>, OutOfMemory>
    requires parcels { length told.now.parcels.now < 2 ^ 63 }
    requires counts { length told.now.counts.now < 2 ^ 31 }
    ensures { IfOk result (λ v. v.items ≡ stubs_of told.now.events.now told.now.counts.now told.now.parcels.now) }
{
    let mut stubs = Vec::new(alloc);
    let parcels = told.parcels;
    for (i, parcel) in parcels.iter().enumerate() {
        let stub = stub_of(told, i as u64 + 1, parcel);
        keep(&mut stubs, stub)?;
    }
    Ok(stubs)
}

/// The picture of a run of a cluster, in which these parties are faulty, each with the number of its cores.
pub fn compose(
    alloc: Global,
    cluster: &Cluster,
    faulty: &[(Party, u8)],
    told: &Tale,
) -> Result<Picture, OutOfMemory>
    requires events { length told.now.events.now < 2 ^ 31 }
    requires counts { length told.now.counts.now < 2 ^ 31 }
    requires parcels { length told.now.parcels.now < 2 ^ 63 }
    ensures picture { IfOk result (λ p. IsPicture cluster.now faulty.now (tale_of told.now) p) }
    ensures count { IfOk result (λ p. length p.moments.items ≡ length told.now.events.now) }
{
    Ok(Picture {
        cluster: *cluster,
        lanes: lanes(alloc, cluster, faulty)?,
        moments: moments(alloc, told)?,
        arrows: arrows(alloc, told)?,
        stubs: stubs(alloc, told)?,
        marks: marks(alloc, told.lines)?,
        premise: told.premise,
    })
}
