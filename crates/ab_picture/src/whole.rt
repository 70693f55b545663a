//! The whole text.

ghost use Rattle.std.specs.Prelude.{◌≡◌, ◌^◌, ◌<◌, ◌++◌, IfOk, OnOk, length, string_bytes};
ghost use Rattle.std.specs.List.{enumerate_from, range_with_len};
ghost use Rattle.ab_picture.specs.Drawn.{AddsDrawing, Shows};
ghost use Rattle.ab_picture.specs.Elements.{IsArrow, IsColour, IsLane, IsMoment, IsName, IsRow, IsSign, IsStub};
ghost use Rattle.ab_picture.specs.Lists.{AddsAll, AddsOne};

use crate::frame::add_head;
use crate::layout::{bottom_of, x_at, x_of_margin};
use crate::lines::add_all_told;
use crate::parts::{
    arrow_name_string, arrow_string, colour_string, first_badge_string, lane_string, moment_string,
    row_string, sign_string, stub_string,
};
use crate::picture::{Lane, Picture};
use ab_num::OutOfMemory;
use std::alloc::Global;

/// The least width: that of the legend.
const LEAST_WIDTH: u64 = 940;

fn add(out: &mut Vec<u8>, text: &String) -> Result<(), OutOfMemory>
    ensures { OnOk result (out.new.items ≡ out.old.items ++ string_bytes text.now) }
{
    out.extend_from_slice(text.as_bytes())?;
    Ok(())
}

/// Adds the rows of the events.
fn add_rows(alloc: Global, out: &mut Vec<u8>, picture: &Picture) -> Result<(), OutOfMemory>
    requires { length picture.now.moments.items < 2 ^ 31 }
    ensures { OnOk result (AddsAll (IsRow picture.now) (range_with_len 1 (length picture.now.moments.items)) out.old.items out.new.items) }
{
    let margin = x_of_margin(picture.lanes.as_slice());
    let count = picture.moments.len();
    for i in 0..count {
        let row = row_string(alloc, &picture.premise, i as u32 + 1, margin)?;
        add(out, &row)?;
    }
    Ok(())
}

/// Adds a lane, and what stands at its head.
fn add_lane(
    alloc: Global,
    out: &mut Vec<u8>,
    picture: &Picture,
    place: usize,
    lane: &Lane,
) -> Result<(), OutOfMemory>
    requires { length picture.now.moments.items < 2 ^ 31 }
    ensures { OnOk result (AddsOne (IsLane picture.now) (place, lane.now) out.old.items out.new.items) }
{
    let x = x_at(place);
    let line = lane_string(alloc, lane, &picture.premise, x, bottom_of(picture))?;
    add(out, &line)?;
    let badge = first_badge_string(alloc, lane, x)?;
    add(out, &badge)
}

/// Adds the lifelines.
fn add_lanes(alloc: Global, out: &mut Vec<u8>, picture: &Picture) -> Result<(), OutOfMemory>
    requires { length picture.now.moments.items < 2 ^ 31 }
    ensures { OnOk result (AddsAll (IsLane picture.now) (enumerate_from 0 picture.now.lanes.items) out.old.items out.new.items) }
{
    let lanes = picture.lanes.as_slice();
    for (i, lane) in lanes.iter().enumerate() {
        add_lane(alloc, out, picture, i, lane)?;
    }
    Ok(())
}

/// Adds the colours that marks give to lifelines.
fn add_colours(alloc: Global, out: &mut Vec<u8>, picture: &Picture) -> Result<(), OutOfMemory>
    requires { length picture.now.moments.items < 2 ^ 31 }
    ensures { OnOk result (AddsAll (IsColour picture.now) picture.now.marks.items out.old.items out.new.items) }
{
    let marks = picture.marks.as_slice();
    for mark in marks {
        let colour = colour_string(alloc, picture, mark)?;
        add(out, &colour)?;
    }
    Ok(())
}

/// Adds the stubs.
fn add_stubs(alloc: Global, out: &mut Vec<u8>, picture: &Picture) -> Result<(), OutOfMemory>
    ensures { OnOk result (AddsAll (IsStub picture.now) picture.now.stubs.items out.old.items out.new.items) }
{
    let stubs = picture.stubs.as_slice();
    for stub in stubs {
        let line = stub_string(alloc, picture, stub)?;
        add(out, &line)?;
    }
    Ok(())
}

/// Adds the lines of the arrows.
fn add_arrows(alloc: Global, out: &mut Vec<u8>, picture: &Picture) -> Result<(), OutOfMemory>
    ensures { OnOk result (AddsAll (IsArrow picture.now) picture.now.arrows.items out.old.items out.new.items) }
{
    let arrows = picture.arrows.as_slice();
    for arrow in arrows {
        let line = arrow_string(alloc, picture, arrow)?;
        add(out, &line)?;
    }
    Ok(())
}

/// Adds the names of the arrows.
fn add_names(alloc: Global, out: &mut Vec<u8>, picture: &Picture) -> Result<(), OutOfMemory>
    ensures { OnOk result (AddsAll (IsName picture.now) picture.now.arrows.items out.old.items out.new.items) }
{
    let arrows = picture.arrows.as_slice();
    for arrow in arrows {
        let name = arrow_name_string(alloc, picture, arrow)?;
        add(out, &name)?;
    }
    Ok(())
}

/// Adds the events.
fn add_moments(alloc: Global, out: &mut Vec<u8>, picture: &Picture) -> Result<(), OutOfMemory>
    requires { length picture.now.moments.items < 2 ^ 31 }
    ensures { OnOk result (AddsAll (IsMoment picture.now) (enumerate_from 1 picture.now.moments.items) out.old.items out.new.items) }
{
    let moments = picture.moments.as_slice();
    for (i, moment) in moments.iter().enumerate() {
        let sign = moment_string(alloc, picture, moment, i as u32 + 1)?;
        add(out, &sign)?;
    }
    Ok(())
}

/// Adds the signs of the marks.
fn add_signs(alloc: Global, out: &mut Vec<u8>, picture: &Picture) -> Result<(), OutOfMemory>
    ensures { OnOk result (AddsAll (IsSign picture.now) picture.now.marks.items out.old.items out.new.items) }
{
    let marks = picture.marks.as_slice();
    for mark in marks {
        let sign = sign_string(alloc, picture, mark)?;
        add(out, &sign)?;
    }
    Ok(())
}

/// Adds all that is drawn of the run of a picture.
fn add_drawing(alloc: Global, out: &mut Vec<u8>, picture: &Picture) -> Result<(), OutOfMemory>
    requires { length picture.now.moments.items < 2 ^ 31 }
    ensures { OnOk result (AddsDrawing picture.now out.old.items out.new.items) }
{
    add_rows(alloc, out, picture)?;
    add_lanes(alloc, out, picture)?;
    add_colours(alloc, out, picture)?;
    add_stubs(alloc, out, picture)?;
    add_arrows(alloc, out, picture)?;
    add_names(alloc, out, picture)?;
    add_moments(alloc, out, picture)?;
    add_signs(alloc, out, picture)?;
    Ok(())
}

/// The text of a picture, which is of the first events of so many: each of its items is drawn, and its marks are told of.
pub fn svg(alloc: Global, picture: &Picture, all: u32) -> Result<Vec<u8>, OutOfMemory>
    requires { length picture.now.moments.items < 2 ^ 31 }
    ensures { IfOk result (λ v. Shows picture.now v.items) }
{
    let margin = x_of_margin(picture.lanes.as_slice());
    let mut body = Vec::new(alloc);
    add_drawing(alloc, &mut body, picture)?;
    let right = add_all_told(alloc, &mut body, margin, picture.marks.as_slice())?;
    let mut out = Vec::new(alloc);
    let width = right.saturating_add(24).max(LEAST_WIDTH);
    add_head(
        alloc,
        &mut out,
        picture,
        all,
        width,
        bottom_of(picture) + 20,
    )?;
    out.append(&mut body)?;
    out.extend_from_slice(b"</svg>\n")?;
    Ok(out)
}
