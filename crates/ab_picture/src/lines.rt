//! What is told beside the lifelines.

ghost use Rattle.std.specs.Prelude.{◌≡◌, IfOk, string_bytes};
ghost use Rattle.ab_picture.specs.Lists.{AddsAll, AddsOne};
ghost use Rattle.ab_picture.specs.Telling.{opening_of, IsLabel};

use crate::escaping::add_escaped;
use crate::labels::label_of;
use crate::layout::y_of;
use crate::picture::Mark;
use ab_num::OutOfMemory;
use std::alloc::{AllocError, Global};

/// The width of a character, and somewhat more.
const CHARACTER: u64 = 8;

/// From the event's number in the margin to what is told of it.
const GAP: u64 = 48;

/// Where the next label of an event stands.
#[derive(Clone, Copy)]
struct Pen {
    event: u32,
    x: u64,
    /// The furthest that any label reaches.
    right: u64,
}

impl Pen {
    fn new(margin: u64) -> Pen {
        Pen {
            event: 0,
            x: margin,
            right: margin.saturating_add(GAP),
        }
    }
}

/// The beginning of a label.
fn open_string(alloc: Global, x: u64, y: u64) -> Result<String, AllocError>
    ensures { IfOk result (λ s. string_bytes s ≡ opening_of x y) }
{
    format!(in alloc; "<text class=\"told\" x=\"{x}\" y=\"{y}\">")
}

/// Adds what is told of a mark behind what is told of its event so far.
fn add_told(
    alloc: Global,
    out: &mut Vec<u8>,
    pen: Pen,
    margin: u64,
    mark: &Mark,
) -> Result<Pen, OutOfMemory>
    ensures { IfOk result (λ _. AddsOne IsLabel mark.now out.old.items out.new.items) }
{
    let x = if pen.event == mark.event {
        pen.x
    } else {
        margin.saturating_add(GAP)
    };
    let label = label_of(alloc, mark)?;
    let open = open_string(alloc, x, y_of(mark.event) + 4)?;
    out.extend_from_slice(open.as_bytes())?;
    add_escaped(out, label.as_slice())?;
    out.extend_from_slice(b"</text>\n")?;
    let length = CHARACTER.saturating_mul(label.len() as u64);
    let right = x.saturating_add(length);
    Ok(Pen {
        event: mark.event,
        x: right.saturating_add(2 * CHARACTER),
        right: pen.right.max(right),
    })
}

/// Adds what is told of the marks, and gives how far it reaches to the right.
pub(crate) fn add_all_told(
    alloc: Global,
    out: &mut Vec<u8>,
    margin: u64,
    marks: &[Mark],
) -> Result<u64, OutOfMemory>
    ensures { IfOk result (λ _. AddsAll IsLabel marks.now out.old.items out.new.items) }
{
    let mut pen = Pen::new(margin);
    for mark in marks {
        pen = add_told(alloc, out, pen, margin, mark)?;
    }
    Ok(pen.right)
}
