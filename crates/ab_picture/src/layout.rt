//! Where things stand in a picture.

ghost use Rattle.std.specs.Prelude.{◌≡◌, ◌^◌, ◌<◌, length, position};
ghost use Rattle.ab_picture.specs.Layout.{bottom_of, is_lane_of, number_of, x_at, x_of, x_of_event, x_of_margin, x_of_party, y_of};

use crate::picture::{Lane, Moment, Picture};
use ab_num::Party;
use ab_text::Core;

/// The lifeline of the first lane.
const LEFT: u64 = 150;

/// From one lifeline to the next.
const STEP: u64 = 112;

/// The row before the first event.
const TOP: u64 = 226;

/// From one event to the next.
const ROW: u64 = 24;

/// More lanes than any cluster has.
const MOST_LANES: usize = 999;

/// The height of an event.
pub(crate) fn y_of(event: u32) -> u64
    ensures { result ≡ y_of event }
{
    TOP + ROW * u64::from(event)
}

/// A core's number, from 1.
fn number_of(core: &Core) -> u8
    ensures { result ≡ number_of core.now }
{
    core.twin.unwrap_or(1)
}

/// Where the lifeline in this place is.
pub(crate) fn x_at(place: usize) -> u64
    ensures is { result ≡ x_at place }
    ensures low { result < 2 ^ 17 }
{
    LEFT + STEP * place.min(MOST_LANES) as u64
}

/// Whether a lane is that of a core.
fn is_lane_of(lane: &Lane, core: &Core) -> bool
    ensures { result ≡ is_lane_of core.now lane.now }
{
    lane.core.party.is_same(core.party) && number_of(&lane.core) == number_of(core)
}

/// The place of a core's lane.
fn place_of(lanes: &[Lane], core: &Core) -> Option<usize>
    ensures { result ≡ position (is_lane_of core.now) lanes.now }
{
    lanes.iter().position(|lane| is_lane_of(lane, core))
}

/// Where the lifeline of a core is.
pub(crate) fn x_of(lanes: &[Lane], core: &Core) -> u64
    ensures is { result ≡ x_of lanes.now core.now }
    ensures low { result < 2 ^ 20 }
{
    x_at(place_of(lanes, core).unwrap_or(0))
}

/// Where the lifeline of a party's first core is.
pub(crate) fn x_of_party(lanes: &[Lane], party: Party) -> u64
    ensures is { result ≡ x_of_party lanes.now party }
    ensures low { result < 2 ^ 20 }
{
    x_of(lanes, &Core { party, twin: None })
}

/// Where the lifeline of an event's core is.
fn x_of_event(lanes: &[Lane], moments: &[Moment], event: u32) -> u64
    ensures is { result ≡ x_of_event lanes.now moments.now event }
    ensures low { result < 2 ^ 20 }
{
    let Some(index) = event.checked_sub(1) else {
        return LEFT;
    };
    match moments.get(index as usize) {
        Some(
            Moment {
                core: Some(core),
                ..
            },
        ) => x_of(lanes, core),
        _ => LEFT,
    }
}

/// Where the lifeline of an event of a picture is.
pub(crate) fn x_of_row(picture: &Picture, event: u32) -> u64
    ensures is { result ≡ x_of_event picture.now.lanes.items picture.now.moments.items event }
    ensures low { result < 2 ^ 20 }
{
    x_of_event(picture.lanes.as_slice(), picture.moments.as_slice(), event)
}

/// Where what is told beside the lifelines begins.
pub(crate) fn x_of_margin(lanes: &[Lane]) -> u64
    ensures is { result ≡ x_of_margin lanes.now }
    ensures low { result < 2 ^ 20 }
{
    x_at(lanes.len()) + 20
}

/// How far down the lifelines reach.
pub(crate) fn bottom_of(picture: &Picture) -> u64
    requires { length picture.now.moments.items < 2 ^ 31 }
    ensures { result ≡ bottom_of picture.now }
{
    y_of(picture.moments.len() as u32) + 20
}
