//! What is said of how a call ends.

ghost use Rattle.std.specs.Prelude.{◌≡◌, ◌≤◌};
ghost use Rattle.ab_io.specs.States.{change};
ghost use Rattle.ab_command.specs.Texts.{fault_status, text_of};
ghost use Rattle.ab_command.specs.Endings.{Settles, SettlesUsage, WritesOrSays};

use crate::status::{Bound, Status};
use ab_io::Sink;
use ab_replay::{Refusal, ReplayFault, WriteFault, refusal_line, write_all};
use std::alloc::Global;

/// Writes the text of a status, and gives the status, or that of the fault of writing it.
pub fn say<E: Sink>(err: &mut E, text: &str, status: Status) -> Status
    requires { text.now ≡ text_of status }
    ensures status { Settles result status (change (E.state err.old) (E.state err.new)) }
    ensures later { (E.state err.old).faults ≤ (E.state err.new).faults }
{
    match write_all(err, text.as_bytes()) {
        Ok(()) => status,
        Err(WriteFault::Failed) => Status::WriteFault,
        Err(WriteFault::OutOfMemory) => Status::OutOfMemory,
    }
}

/// Says that an allocation failed.
pub fn say_no_memory<E: Sink>(err: &mut E) -> Status
    ensures status { Settles result Status.OutOfMemory (change (E.state err.old) (E.state err.new)) }
    ensures later { (E.state err.old).faults ≤ (E.state err.new).faults }
{
    say(err, "out of memory\n", Status::OutOfMemory)
}

/// Writes the usage line of a program whose words are wrong.
pub fn say_usage<E: Sink>(err: &mut E, usage: &str) -> Status
    ensures { SettlesUsage result usage.now (change (E.state err.old) (E.state err.new)) }
{
    match write_all(err, usage.as_bytes()) {
        Ok(()) => Status::Usage,
        Err(WriteFault::Failed) => Status::WriteFault,
        Err(WriteFault::OutOfMemory) => Status::OutOfMemory,
    }
}

/// Writes a text to `out` and gives the status, or says on `err` what went wrong.
pub fn write_or_say<O: Sink, E: Sink>(
    out: &mut O,
    err: &mut E,
    text: &[u8],
    status: Status,
) -> Status
    ensures { WritesOrSays result status text.now (change (O.state out.old) (O.state out.new)) (change (E.state err.old) (E.state err.new)) }
{
    match write_all(out, text) {
        Ok(()) => status,
        Err(WriteFault::Failed) => say(err, "write fault\n", Status::WriteFault),
        Err(WriteFault::OutOfMemory) => say_no_memory(err),
    }
}

/// Says which line is refused.
pub(crate) fn say_refusal<E: Sink>(alloc: Global, err: &mut E, refusal: Refusal) -> Status
    ensures status { Settles result (Status.Refused refusal) (change (E.state err.old) (E.state err.new)) }
    ensures later { (E.state err.old).faults ≤ (E.state err.new).faults }
{
    match refusal_line(alloc, refusal) {
        Ok(line) => say(err, line.as_str(), Status::Refused(refusal)),
        Err(_) => say_no_memory(err),
    }
}

/// Says why a schedule isn't replayed.
pub fn say_replay_fault<E: Sink>(alloc: Global, err: &mut E, fault: ReplayFault) -> Status
    ensures status { Settles result (fault_status fault) (change (E.state err.old) (E.state err.new)) }
    ensures later { (E.state err.old).faults ≤ (E.state err.new).faults }
{
    match fault {
        ReplayFault::Read => say(err, "read fault\n", Status::ReadFault),
        ReplayFault::TooLong => say(err, "limit bytes\n", Status::Limit(Bound::Bytes)),
        ReplayFault::Refused(refusal) => say_refusal(alloc, err, refusal),
        ReplayFault::TooManyEvents => say(err, "limit events\n", Status::Limit(Bound::Events)),
        ReplayFault::TooManyPackets => say(err, "limit packets\n", Status::Limit(Bound::Packets)),
        ReplayFault::OutOfMemory => say_no_memory(err),
    }
}
