//! What the program does.

ghost use Rattle.std.specs.Prelude.{◌≡◌, ◌≤◌, ◌∷◌, List, ℕ, IfOk, IfSome, None, codes, map};
ghost use Rattle.ab_num.specs.Limits.{most_events};
ghost use Rattle.ab_words.specs.Uses.{texts};
ghost use Rattle.ab_words.specs.Commands.{StormCommand as TheStorm};
ghost use Rattle.ab_io.specs.States.{change};
ghost use Rattle.ab_command.specs.ScheduleEndings.{Asks, ScheduleCause};

use crate::saying::{say, say_no_memory, say_usage, write_or_say};
use crate::schedule::storm_text;
use crate::status::{Bound, Status};
use ab_io::Sink;
use ab_num::OutOfMemory;
use ab_storm::StormFault;
use ab_words::{Command, StormCommand, command_in};
use std::alloc::Global;

const USAGE: &str =
    "usage: storm_schedule --plan P --f F --clients N --seed S --events E > SCHEDULE\n";

/// The words of the command `storm` with these options.
fn storm_words<'a>(alloc: Global, options: &[&'a str]) -> Result<Vec<&'a str>, OutOfMemory>
    ensures { IfOk result (λ v. texts v.items ≡ codes "storm" ∷ texts options.now) }
{
    let mut words = Vec::new(alloc);
    words.push("storm")?;
    for option in options {
        words.push(*option)?;
    }
    Ok(words)
}

/// The storm that the options ask for, if they are those of one.
fn storm_in(alloc: Global, options: &[&str]) -> Result<Option<StormCommand>, OutOfMemory>
    ensures found { IfOk result (λ o. IfSome o (λ k. Asks (texts options.now) k)) }
    ensures none { IfOk result (λ o. o ≡ None → (k : TheStorm) → Asks (texts options.now) k → ⊥) }
    ensures few { IfOk result (λ o. IfSome o (λ k. k.events ≤ most_events)) }
{
    let words = storm_words(alloc, options)?;
    match command_in(alloc, words.as_slice()) {
        Ok(Some(Command::Storm(asked))) => Ok(Some(asked)),
        Ok(_) => Ok(None),
        Err(_) => Err(OutOfMemory),
    }
}

/// Writes the schedule of the storm that is asked for.
fn serve_storm<O: Sink, E: Sink>(
    alloc: Global,
    asked: &StormCommand,
    out: &mut O,
    err: &mut E,
) -> Status
    requires few { asked.now.events ≤ most_events }
    ensures cause { (options : List (List ℕ)) → Asks options asked.now
        → ScheduleCause result options (change (O.state out.old) (O.state out.new)) (change (E.state err.old) (E.state err.new)) }
{
    let text = match storm_text(alloc, asked) {
        Ok(text) => text,
        Err(StormFault::TooManyPackets) => {
            return say(err, "limit packets\n", Status::Limit(Bound::Packets));
        }
        Err(StormFault::OutOfMemory) => return say_no_memory(err),
    };
    write_or_say(out, err, text.as_slice(), Status::Done)
}

/// Writes to `out` the schedule of the storm for which the options ask, which are those of the command `storm`, and tells how
/// it ended. What went wrong is said on `err`.
pub fn serve<O: Sink, E: Sink>(alloc: Global, options: &[&str], out: &mut O, err: &mut E) -> Status
    ensures cause { ScheduleCause result (map (λ w. w.now) options.now)
        (change (O.state out.old) (O.state out.new)) (change (E.state err.old) (E.state err.new)) }
{
    match storm_in(alloc, options) {
        Ok(Some(asked)) => serve_storm(alloc, &asked, out, err),
        Ok(None) => say_usage(err, USAGE),
        Err(_) => say_no_memory(err),
    }
}
