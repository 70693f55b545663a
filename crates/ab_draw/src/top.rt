//! What the program does.

ghost use Rattle.std.specs.Prelude.{◌≡◌, IsTrue};
ghost use Rattle.ab_io.specs.States.{change};
ghost use Rattle.ab_draw.specs.Endings.{DrawCause};

use crate::drawing::draw;
use ab_command::{Status, say_replay_fault, say_usage, write_or_say};
use ab_io::{Sink, Source};
use std::alloc::Global;

const USAGE: &str = "usage: draw < SCHEDULE > PICTURE\n";

/// Draws the run that the input spells, and tells how it ended. No words are taken.
pub fn serve<I: Source, O: Sink, E: Sink>(
    alloc: Global,
    is_called_with_words: bool,
    input: &mut I,
    out: &mut O,
    err: &mut E,
) -> Status
    ensures cause { DrawCause result is_called_with_words (change (I.state input.old) (I.state input.new))
        (change (O.state out.old) (O.state out.new)) (change (E.state err.old) (E.state err.new)) }
    ensures untouched { IsTrue is_called_with_words → input.new ≡ input.old }
{
    if is_called_with_words {
        return say_usage(err, USAGE);
    }
    let text = match draw(alloc, input) {
        Ok(text) => text,
        Err(fault) => return say_replay_fault(alloc, err, fault),
    };
    write_or_say(out, err, text.as_slice(), Status::Done)
}
