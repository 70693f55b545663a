//! A schedule is written.

ghost use Rattle.std.specs.Prelude.{◌≡◌, IfOk};
ghost use Rattle.ab_text.specs.Schedules.{script_of};
ghost use Rattle.ab_text.specs.Texts.{schedule_text};

use crate::event_writing::add_events;
use crate::head_writing::{add_faulty, add_head};
use crate::line_writing::add_line;
use crate::schedule::Schedule;
use ab_num::OutOfMemory;
use std::alloc::Global;

/// The text of a schedule: its lines, each with a line feed at its end.
pub fn write_schedule(alloc: Global, schedule: &Schedule) -> Result<Vec<u8>, OutOfMemory>
    ensures { IfOk result (λ v. v.items ≡ schedule_text (script_of schedule.now.head schedule.now.events)) }
{
    let mut out = Vec::new(alloc);
    add_head(&mut out, alloc, &schedule.head)?;
    add_faulty(&mut out, alloc, schedule.head.faulty.as_slice())?;
    add_line(&mut out, b"run")?;
    add_events(&mut out, alloc, schedule.events.as_slice())?;
    add_line(&mut out, b"end")?;
    Ok(out)
}
