//! The parts of a picture as elements.

ghost use Rattle.std.specs.Prelude.{◌≡◌, ◌-◌, ◌^◌, ◌<◌, ◌≤◌, ◌++◌, IfOk, length, string_bytes};
ghost use Rattle.ab_text.specs.Cores.{core_text};
ghost use Rattle.ab_picture.specs.Elements.{again_text, arrow_begin, arrow_end, badge_text, box_text, boxed_text, clock_face, clock_hand, clock_text, colour_of, trigger_name, trigger_text, event_class, first_badge, half_of, head_class, head_text, lane_class, lifeline_text, line_text, name_text, number_text, panic_text, row_text, rule_text, stub_line, stub_title, IsArrow, IsColour, IsMoment, IsName, IsSign, IsStub};
ghost use Rattle.ab_picture.specs.Layout.{y_of};

use crate::layout::{bottom_of, x_of, x_of_party, x_of_row, y_of};
use crate::names::message_name;
use crate::picture::{Arrow, Lane, Mark, Moment, Picture, Sign, Stub, Trigger};
use ab_num::Party;
use ab_text::{Core, Premise, party_string};
use std::alloc::{AllocError, Global};

/// One text behind another.
fn joined(mut front: String, back: String) -> Result<String, AllocError>
    ensures { IfOk result (λ s. string_bytes s ≡ string_bytes front ++ string_bytes back) }
{
    front.push_str(back.as_str())?;
    Ok(front)
}

/// The name of a core.
fn core_string(alloc: Global, core: &Core) -> Result<String, AllocError>
    ensures { IfOk result (λ s. string_bytes s ≡ core_text core.now) }
{
    let party = party_string(alloc, core.party)?;
    match core.twin {
        None => Ok(party),
        Some(twin) => format!(in alloc; "{party}.{twin}"),
    }
}

/// The class of a party's head: red where a broken premise names the party.
fn head_class(premise: &Premise, party: Party) -> &'static str
    ensures { result.now ≡ head_class premise.now party }
{
    match premise {
        Premise::Held => "head",
        Premise::Broken { party: named, .. } => {
            if named.is_same(party) {
                "head red"
            } else {
                "head"
            }
        }
    }
}

/// The class of what shows an event: red where it broke a premise.
fn event_class(premise: &Premise, event: u32) -> &'static str
    ensures { result.now ≡ event_class premise.now event }
{
    match premise {
        Premise::Held => "plain",
        Premise::Broken { event: named, .. } => { if *named == event { "red" } else { "plain" } }
    }
}

/// The class of a lifeline. A correct replica begins in instance 1, and its line has a colour.
fn lane_class(lane: &Lane) -> &'static str
    ensures { result.now ≡ lane_class lane.now.core.party lane.now.faulty }
{
    match (lane.core.party, lane.faulty) {
        (Party::Client(_), false) => "lane",
        (Party::Client(_), true) => "lane faulty",
        (Party::Replica(_), false) => "lane replica i1",
        (Party::Replica(_), true) => "lane replica faulty",
    }
}

/// The name at the head of a lifeline.
fn head_string(
    alloc: Global,
    head: &str,
    name: &str,
    x: u64,
    above: u64,
) -> Result<String, AllocError>
    ensures { IfOk result (λ s. string_bytes s ≡ head_text head.now name.now x above) }
{
    format!(in alloc; "<text class=\"{head}\" x=\"{x}\" y=\"{above}\">{name}</text>\n")
}

/// The line of a lifeline.
fn line_string(
    alloc: Global,
    class: &str,
    x: u64,
    top: u64,
    bottom: u64,
) -> Result<String, AllocError>
    ensures { IfOk result (λ s. string_bytes s ≡ line_text class.now x top bottom) }
{
    format!(in alloc; "<path class=\"{class}\" d=\"M{x} {top}V{bottom}\"/>\n")
}

/// A lifeline, with the core's name at its head.
pub(crate) fn lane_string(
    alloc: Global,
    lane: &Lane,
    premise: &Premise,
    x: u64,
    bottom: u64,
) -> Result<String, AllocError>
    ensures { IfOk result (λ s. string_bytes s ≡ lifeline_text (head_class premise.now lane.now.core.party) (lane_class lane.now.core.party lane.now.faulty) (core_text lane.now.core) x (y_of 0 - 24) (y_of 0 - 12) bottom) }
{
    let name = core_string(alloc, &lane.core)?;
    let head = head_class(premise, lane.core.party);
    let class = lane_class(lane);
    let top = y_of(0) - 12;
    let above = y_of(0) - 24;
    let front = head_string(alloc, head, name.as_str(), x, above)?;
    let line = line_string(alloc, class, x, top, bottom)?;
    joined(front, line)
}

/// The number of the colour of an instance.
fn colour_of(instance: u32) -> u32
    ensures { result ≡ colour_of instance }
{
    instance % 8
}

/// A box in a colour.
fn box_string(
    alloc: Global,
    colour: u32,
    left: u64,
    top: u64,
    width: u64,
) -> Result<String, AllocError>
    ensures { IfOk result (λ s. string_bytes s ≡ box_text colour left top width) }
{
    format!(in alloc;
        "<rect class=\"i{colour}\" x=\"{left}\" y=\"{top}\" width=\"{width}\" height=\"18\" rx=\"8\"/>"
    )
}

/// The number in a box.
fn boxed_string(alloc: Global, instance: u32, x: u64, base: u64) -> Result<String, AllocError>
    ensures { IfOk result (λ s. string_bytes s ≡ boxed_text instance x base) }
{
    format!(in alloc; "<text class=\"badge\" x=\"{x}\" y=\"{base}\">{instance}</text>\n")
}

/// Half the width of the box of a number.
fn half_of(alloc: Global, instance: u32) -> Result<u64, AllocError>
    ensures is { IfOk result (λ half. half ≡ half_of instance) }
    ensures low { IfOk result (λ half. half ≤ 85) }
{
    let number = format!(in alloc; "{instance}")?;
    let digits = number.as_bytes().len().min(20);
    Ok(5 + 4 * digits as u64)
}

/// A number on the colour of an instance.
fn badge_string(alloc: Global, instance: u32, x: u64, y: u64) -> Result<String, AllocError>
    requires x { x < 2 ^ 20 }
    requires y { y < 2 ^ 40 }
    ensures { IfOk result (λ s. string_bytes s ≡ badge_text instance (half_of instance) x y) }
{
    let half = half_of(alloc, instance)?;
    let left = x.saturating_sub(half);
    let top = y.saturating_sub(9);
    let colour = box_string(alloc, colour_of(instance), left, top, 2 * half)?;
    let number = boxed_string(alloc, instance, x, y + 4)?;
    joined(colour, number)
}

/// Instance 1 at the head of a correct replica's lifeline.
pub(crate) fn first_badge_string(alloc: Global, lane: &Lane, x: u64) -> Result<String, AllocError>
    requires { x < 2 ^ 20 }
    ensures { IfOk result (λ s. string_bytes s ≡ first_badge lane.now.core.party lane.now.faulty x) }
{
    match (lane.core.party, lane.faulty) {
        (Party::Replica(_), false) => badge_string(alloc, 1, x, y_of(0) - 6),
        (Party::Replica(_), true) => Ok(String::new(alloc)),
        (Party::Client(_), _) => Ok(String::new(alloc)),
    }
}

/// The colour of a replica's lifeline from the event on in which it enters an instance.
pub(crate) fn colour_string(
    alloc: Global,
    picture: &Picture,
    mark: &Mark,
) -> Result<String, AllocError>
    requires { length picture.now.moments.items < 2 ^ 31 }
    ensures { IfOk result (λ s. IsColour picture.now mark.now (string_bytes s)) }
{
    let Sign::Entered { instance } = &mark.sign else {
        return Ok(String::new(alloc));
    };
    let colour = colour_of(*instance);
    let x = x_of_party(picture.lanes.as_slice(), mark.party);
    let y = y_of(mark.event);
    let bottom = bottom_of(picture);
    format!(in alloc; "<path class=\"lane replica i{colour}\" d=\"M{x} {y}V{bottom}\"/>\n")
}

/// The line of a row.
fn rule_string(alloc: Global, y: u64, end: u64) -> Result<String, AllocError>
    ensures { IfOk result (λ s. string_bytes s ≡ rule_text y end) }
{
    format!(in alloc; "<path class=\"row\" d=\"M48 {y}H{end}\"/>")
}

/// The number of an event, before its row.
fn number_string(alloc: Global, class: &str, event: u32, base: u64) -> Result<String, AllocError>
    ensures { IfOk result (λ s. string_bytes s ≡ number_text class.now event base) }
{
    format!(in alloc; "<text class=\"number {class}\" x=\"44\" y=\"{base}\">{event}</text>")
}

/// The number of an event, behind its row.
fn again_string(
    alloc: Global,
    class: &str,
    event: u32,
    margin: u64,
    base: u64,
) -> Result<String, AllocError>
    ensures { IfOk result (λ s. string_bytes s ≡ again_text class.now event margin base) }
{
    format!(in alloc; "<text class=\"again {class}\" x=\"{margin}\" y=\"{base}\">{event}</text>\n")
}

/// The number of an event, on both sides, with a line between them.
pub(crate) fn row_string(
    alloc: Global,
    premise: &Premise,
    event: u32,
    margin: u64,
) -> Result<String, AllocError>
    ensures { IfOk result (λ s. string_bytes s ≡ row_text (event_class premise.now event) event (y_of event) (margin - 4) margin) }
{
    let class = event_class(premise, event);
    let y = y_of(event);
    let line = rule_string(alloc, y, margin.saturating_sub(4))?;
    let number = number_string(alloc, class, event, y + 4)?;
    let again = again_string(alloc, class, event, margin, y + 4)?;
    let front = joined(line, number)?;
    joined(front, again)
}

/// The beginning of an arrow, up to the height of its end.
fn arrow_begin_string(
    alloc: Global,
    x: u64,
    y: u64,
    bend: u64,
    end: u64,
) -> Result<String, AllocError>
    ensures { IfOk result (λ s. string_bytes s ≡ arrow_begin x y bend end) }
{
    format!(in alloc; "<path class=\"arrow\" d=\"M{x} {y}Q{bend} {end}")
}

/// The end of an arrow.
fn arrow_end_string(alloc: Global, there: u64, end: u64) -> Result<String, AllocError>
    ensures { IfOk result (λ s. string_bytes s ≡ arrow_end there end) }
{
    format!(in alloc; " {there} {end}\"/>\n")
}

/// The line of an arrow. It is bent, so that arrows of one event to several lifelines don't cover each other.
pub(crate) fn arrow_string(
    alloc: Global,
    picture: &Picture,
    arrow: &Arrow,
) -> Result<String, AllocError>
    ensures { IfOk result (λ s. IsArrow picture.now arrow.now (string_bytes s)) }
{
    let x = x_of_row(picture, arrow.from);
    let y = y_of(arrow.from);
    let there = x_of_row(picture, arrow.to);
    let end = y_of(arrow.to);
    let bend = if x == there { x + 60 } else { (x + there) / 2 };
    let front = arrow_begin_string(alloc, x, y, bend, end)?;
    let back = arrow_end_string(alloc, there, end)?;
    joined(front, back)
}

/// What stands above an event's row, to the left or to the right of its place.
fn beside_string(
    alloc: Global,
    x: u64,
    y: u64,
    left: bool,
    name: &str,
    number: u64,
) -> Result<String, AllocError>
    ensures { IfOk result (λ s. string_bytes s ≡ name_text left x y name.now number) }
{
    let base = y.saturating_sub(3);
    if left {
        return format!(in alloc;
            "<text class=\"name left\" x=\"{x}\" y=\"{base}\">{name} {number}</text>\n"
        );
    }
    format!(in alloc; "<text class=\"name\" x=\"{x}\" y=\"{base}\">{name} {number}</text>\n")
}

/// The name of an arrow, on the far side of its end.
pub(crate) fn arrow_name_string(
    alloc: Global,
    picture: &Picture,
    arrow: &Arrow,
) -> Result<String, AllocError>
    ensures { IfOk result (λ s. IsName picture.now arrow.now (string_bytes s)) }
{
    let x = x_of_row(picture, arrow.from);
    let there = x_of_row(picture, arrow.to);
    let y = y_of(arrow.to);
    let name = message_name(arrow.code);
    if there < x {
        let at = there.saturating_sub(24);
        return beside_string(alloc, at, y, true, name, arrow.packet);
    }
    beside_string(alloc, there + 24, y, false, name, arrow.packet)
}

/// The line of a stub.
fn stub_line_string(
    alloc: Global,
    x: u64,
    y: u64,
    there: u64,
    end: u64,
) -> Result<String, AllocError>
    ensures { IfOk result (λ s. string_bytes s ≡ stub_line x y there end) }
{
    format!(in alloc; "<path class=\"stub\" d=\"M{x} {y}L{there} {end}\">")
}

/// What a stub says of its packet.
fn stub_title_string(
    alloc: Global,
    name: &str,
    number: u64,
    party: &str,
) -> Result<String, AllocError>
    ensures { IfOk result (λ s. string_bytes s ≡ stub_title name.now number party.now) }
{
    format!(in alloc; "<title>{name} {number} to {party}, not delivered</title></path>\n")
}

/// A stub, towards the lifeline of the addressee.
pub(crate) fn stub_string(
    alloc: Global,
    picture: &Picture,
    stub: &Stub,
) -> Result<String, AllocError>
    ensures { IfOk result (λ s. IsStub picture.now stub.now (string_bytes s)) }
{
    let x = x_of_row(picture, stub.from);
    let to = x_of_party(picture.lanes.as_slice(), stub.to);
    let y = y_of(stub.from);
    // Stubs of one event end at different heights, by their numbers.
    let end = y + 6 + 4 * (stub.packet % 4);
    let there = if to < x {
        x.saturating_sub(8 + (x - to) / 18)
    } else {
        x + 8 + (to - x) / 18
    };
    let party = party_string(alloc, stub.to)?;
    let line = stub_line_string(alloc, x, y, there, end)?;
    let title = stub_title_string(alloc, message_name(stub.code), stub.packet, party.as_str())?;
    joined(line, title)
}

/// The face of a clock.
fn clock_face_string(alloc: Global, class: &str, x: u64, y: u64) -> Result<String, AllocError>
    ensures { IfOk result (λ s. string_bytes s ≡ clock_face class.now x y) }
{
    format!(in alloc; "<circle class=\"hollow {class}\" cx=\"{x}\" cy=\"{y}\" r=\"6\"/>")
}

/// The hand of a clock.
fn clock_hand_string(
    alloc: Global,
    class: &str,
    x: u64,
    y: u64,
    top: u64,
) -> Result<String, AllocError>
    ensures { IfOk result (λ s. string_bytes s ≡ clock_hand class.now x y top) }
{
    format!(in alloc; "<path class=\"thin {class}\" d=\"M{x} {top}V{y}h4\"/>\n")
}

/// The sign of a timer that runs out.
fn clock_string(alloc: Global, class: &str, x: u64, y: u64, top: u64) -> Result<String, AllocError>
    ensures { IfOk result (λ s. string_bytes s ≡ clock_text class.now x y top) }
{
    let face = clock_face_string(alloc, class, x, y)?;
    let hand = clock_hand_string(alloc, class, x, y, top)?;
    joined(face, hand)
}

/// The sign of what an event is.
fn trigger_string(
    alloc: Global,
    trigger: Trigger,
    class: &str,
    x: u64,
    y: u64,
) -> Result<String, AllocError>
    ensures { IfOk result (λ s. string_bytes s ≡ trigger_text trigger class.now x y) }
{
    let left = x.saturating_sub(5);
    let top = y.saturating_sub(5);
    match trigger {
        Trigger::Delivered => {
            format!(in alloc; "<circle class=\"{class}\" cx=\"{x}\" cy=\"{y}\" r=\"3.5\"/>\n")
        }
        Trigger::Invoked => {
            format!(in alloc;
                "<rect class=\"{class}\" x=\"{left}\" y=\"{top}\" width=\"10\" height=\"10\"/>\n"
            )
        }
        Trigger::TimedOut => clock_string(alloc, class, x, y, top),
        Trigger::Injected => {
            format!(in alloc;
                "<path class=\"hollow {class}\" d=\"M{x} {y}m-7 0l7 -7 7 7 -7 7z\"/>\n"
            )
        }
    }
}

/// What is written beside an event that is no delivery.
fn trigger_name(trigger: Trigger) -> &'static str
    ensures { result.now ≡ trigger_name trigger }
{
    match trigger {
        Trigger::Delivered => "",
        Trigger::Invoked => "invoke",
        Trigger::TimedOut => "timeout",
        Trigger::Injected => "inject",
    }
}

/// The sign of a panic.
fn panic_string(alloc: Global, panics: bool, x: u64, y: u64) -> Result<String, AllocError>
    requires { y < 2 ^ 40 }
    ensures { IfOk result (λ s. string_bytes s ≡ panic_text panics x y) }
{
    if !panics {
        return Ok(String::new(alloc));
    }
    let left = x.saturating_sub(16);
    let base = y + 6;
    format!(in alloc; "<text class=\"panic\" x=\"{left}\" y=\"{base}\">!</text>")
}

/// An event on its lifeline.
pub(crate) fn moment_string(
    alloc: Global,
    picture: &Picture,
    moment: &Moment,
    event: u32,
) -> Result<String, AllocError>
    ensures { IfOk result (λ s. IsMoment picture.now (event, moment.now) (string_bytes s)) }
{
    let Some(core) = &moment.core else {
        return Ok(String::new(alloc));
    };
    let x = x_of(picture.lanes.as_slice(), core);
    let y = y_of(event);
    let class = event_class(&picture.premise, event);
    let sign = trigger_string(alloc, moment.trigger, class, x, y)?;
    let panic = panic_string(alloc, moment.panics, x, y)?;
    let name = trigger_name(moment.trigger);
    let at = x + 24;
    let base = y - 3;
    format!(in alloc; "{panic}<text class=\"name cue\" x=\"{at}\" y=\"{base}\">{name}</text>{sign}")
}

/// The sign of a mark on its lifeline.
pub(crate) fn sign_string(
    alloc: Global,
    picture: &Picture,
    mark: &Mark,
) -> Result<String, AllocError>
    ensures { IfOk result (λ s. IsSign picture.now mark.now (string_bytes s)) }
{
    let x = x_of_party(picture.lanes.as_slice(), mark.party);
    let y = y_of(mark.event);
    match &mark.sign {
        Sign::Invoked { .. } => {
            format!(in alloc; "<path class=\"solid\" d=\"M{x} {y}m-18 -6l10 6 -10 6z\"/>\n")
        }
        Sign::Committed { .. } => {
            format!(in alloc; "<circle class=\"ring\" cx=\"{x}\" cy=\"{y}\" r=\"8\"/>\n")
        }
        Sign::Certified { .. } => {
            format!(in alloc; "<path class=\"ring\" d=\"M{x} {y}m-12 -11h24v22h-24z\"/>\n")
        }
        Sign::Entered { instance } => badge_string(alloc, *instance, x, y),
        Sign::Refused(_) => {
            format!(in alloc; "<path class=\"ring\" d=\"M{x} {y}m-6 -6l12 12m0 -12l-12 12\"/>\n")
        }
        Sign::Spent => {
            format!(in alloc;
                "<path class=\"ring\" d=\"M{x} {y}m-8 0a8 8 0 1 0 16 0 8 8 0 1 0 -16 0m2 6l12 -12\"/>\n"
            )
        }
    }
}
