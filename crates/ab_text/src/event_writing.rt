//! The lines of events.

ghost use Rattle.std.specs.Prelude.{◌≡◌, ◌++◌, ◌∷◌, [], IfOk, OnOk, map, string_bytes};
ghost use Rattle.ab_text.specs.Cores.{core_text};
ghost use Rattle.ab_text.specs.EventLines.{delivery_text, event_line};
ghost use Rattle.ab_text.specs.Texts.{text_of};

use crate::event::{Core, Event};
use crate::line_writing::{add, add_line};
use crate::report::party_string;
use ab_num::OutOfMemory;
use std::alloc::{AllocError, Global};

/// The text of a core.
fn core_string(alloc: Global, core: &Core) -> Result<String, AllocError>
    ensures { IfOk result (λ s. string_bytes s ≡ core_text core.now) }
{
    let party = party_string(alloc, core.party)?;
    match core.twin {
        None => Ok(party),
        Some(twin) => format!(in alloc; "{party}.{twin}"),
    }
}

/// A packet's number, and a core where one is named.
fn delivery_string(alloc: Global, packet: u64, core: &Option<Core>) -> Result<String, AllocError>
    ensures { IfOk result (λ s. string_bytes s ≡ delivery_text packet core.now) }
{
    match core {
        None => format!(in alloc; "{packet}"),
        Some(core) => {
            let core = core_string(alloc, core)?;
            format!(in alloc; "{packet} {core}")
        }
    }
}

/// A word and a text.
fn told(alloc: Global, word: &[u8], text: &[u8]) -> Result<Vec<u8>, OutOfMemory>
    ensures { IfOk result (λ v. v.items ≡ word.now ++ text.now) }
{
    let mut line = Vec::from_slice(alloc, word)?;
    add(&mut line, text)?;
    Ok(line)
}

/// A word, a core and a text.
fn told_of(alloc: Global, word: &[u8], core: &Core, text: &[u8]) -> Result<Vec<u8>, OutOfMemory>
    ensures { IfOk result (λ v. v.items ≡ word.now ++ (core_text core.now ++ 32 ∷ text.now)) }
{
    let core = core_string(alloc, core)?;
    let mut line = Vec::from_slice(alloc, word)?;
    add(&mut line, core.as_bytes())?;
    add(&mut line, b" ")?;
    add(&mut line, text)?;
    Ok(line)
}

/// The line of an event.
fn event_line(alloc: Global, event: &Event) -> Result<Vec<u8>, OutOfMemory>
    ensures { IfOk result (λ v. v.items ≡ event_line event.now) }
{
    match event {
        Event::Invoke { core, command } => told_of(alloc, b"invoke ", core, command.as_slice()),
        Event::Deliver { packet, core } => {
            let delivery = delivery_string(alloc, *packet, core)?;
            told(alloc, b"deliver ", delivery.as_bytes())
        }
        Event::Timeout { core } => {
            let core = core_string(alloc, core)?;
            told(alloc, b"timeout ", core.as_bytes())
        }
        Event::Inject { core, bytes } => {
            let digits = hex::encode(alloc, bytes.as_slice())?;
            told_of(alloc, b"inject ", core, digits.as_bytes())
        }
    }
}

/// Adds the line of an event.
fn add_event(out: &mut Vec<u8>, alloc: Global, event: &Event) -> Result<(), OutOfMemory>
    ensures { OnOk result (out.new.items ≡ out.old.items ++ text_of (event_line event.now ∷ [])) }
{
    let line = event_line(alloc, event)?;
    add_line(out, line.as_slice())
}

/// Adds the lines of events.
pub(crate) fn add_events(
    out: &mut Vec<u8>,
    alloc: Global,
    events: &[Event],
) -> Result<(), OutOfMemory>
    ensures { OnOk result (out.new.items ≡ out.old.items ++ text_of (map event_line events.now)) }
{
    for event in events {
        add_event(out, alloc, event)?;
    }
    Ok(())
}
