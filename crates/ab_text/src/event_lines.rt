//! The lines of events.

ghost use Rattle.std.specs.Prelude.{◌≡◌, ℕ, List, ◌^◌, ◌<◌, ◌++◌, ◌∷◌, ◌↔◌, IsTrue, IfOk, IfSome, IsSomeAnd, Option, None, Some, decimal, codes};
ghost use Rattle.hex.specs.Hex.{encode_lower};
ghost use Rattle.ab_text.specs.declared.event.Core.{Core as TheCore};
ghost use Rattle.ab_text.specs.declared.event.Event.{Event as TheEvent};
ghost use Rattle.ab_text.specs.Cores.{IsClient, IsCore, core_text};
ghost use Rattle.ab_text.specs.EventLines.{event_line, delivery_text, IsEvent, IsCommand, IsInjected};

use crate::bytes::bytes_of;
use crate::cores::core_of;
use crate::event::{Core, Event};
use crate::numbers::number;
use crate::parts::{after, split_first};
use ab_num::{OutOfMemory, Party};
use arrayvec::ArrayVec;
use std::alloc::Global;

/// Whether this is a command.
fn is_command(text: &[u8]) -> bool
    ensures { IsTrue result ↔ IsCommand text.now }
{
    !text.is_empty() && text.len() <= 128 && text.iter().all(|b| *b >= 0x20 && *b <= 0x7e)
}

/// The command, if it is one.
pub fn command_of(text: &[u8]) -> Option<ArrayVec<u8, 128>>
    ensures found { IfSome result (λ v. (v.items ≡ text.now) × IsCommand text.now) }
    ensures only { IsCommand text.now → IsSomeAnd result (λ v. v.items ≡ text.now) }
{
    if !is_command(text) {
        return None;
    }
    let mut command = ArrayVec::new();
    match command.try_extend_from_slice(text) {
        Ok(()) => Some(command),
        Err(_) => None,
    }
}

/// The client's core that a text names.
fn client_core_of(text: &[u8]) -> Option<Core>
    ensures found { IfSome result (λ core. IsCore core × IsClient core.party × (text.now ≡ core_text core)) }
    ensures only { (core : TheCore) → IsCore core → IsClient core.party → text.now ≡ core_text core → result ≡ Some core }
{
    let core = core_of(text)?;
    match core.party {
        Party::Client(_) => Some(core),
        Party::Replica(_) => None,
    }
}

/// The invocation of these parts.
fn invocation(core: &[u8], command: &[u8]) -> Option<Event>
    ensures found { IfSome result (λ e. IsEvent e × (codes "invoke " ++ (core.now ++ 32 ∷ command.now) ≡ event_line e)) }
    ensures only { (k : TheCore) → IsCore k → IsClient k.party → IsCommand command.now → core.now ≡ core_text k
        → result ≡ Some (Event.Invoke k (record { items = command.now })) }
{
    match client_core_of(core) {
        None => None,
        Some(core) => match command_of(command) {
            None => None,
            Some(command) => Some(Event::Invoke { core, command }),
        },
    }
}

/// The event of what comes after the word for an invocation.
fn invoke_of(text: &[u8]) -> Option<Event>
    ensures found { IfSome result (λ e. IsEvent e × (codes "invoke " ++ text.now ≡ event_line e)) }
    ensures only { (core : TheCore) (command : List ℕ) → IsCore core → IsClient core.party → IsCommand command
        → text.now ≡ core_text core ++ 32 ∷ command → result ≡ Some (Event.Invoke core (record { items = command })) }
{
    match split_first(text, b' ') {
        None => None,
        Some((core, command)) => invocation(core, command),
    }
}

/// The delivery of a packet to its addressee.
fn plain_delivery(packet: &[u8]) -> Option<Event>
    ensures found { IfSome result (λ e. IsEvent e × (codes "deliver " ++ packet.now ≡ event_line e)) }
    ensures only { (k : ℕ) → k < 2 ^ 64 → packet.now ≡ decimal k → result ≡ Some (Event.Deliver k None) }
{
    let packet = number(packet)?;
    Some(Event::Deliver { packet, core: None })
}

/// The delivery of a packet to a core.
fn core_delivery(packet: &[u8], core: &[u8]) -> Option<Event>
    ensures found { IfSome result (λ e. IsEvent e × (codes "deliver " ++ (packet.now ++ 32 ∷ core.now) ≡ event_line e)) }
    ensures only { (k : ℕ) (c : TheCore) → k < 2 ^ 64 → IsCore c → packet.now ≡ decimal k → core.now ≡ core_text c
        → result ≡ Some (Event.Deliver k (Some c)) }
{
    let packet = number(packet)?;
    let core = core_of(core)?;
    Some(Event::Deliver {
        packet,
        core: Some(core),
    })
}

/// The event of what comes after the word for a delivery.
fn deliver_of(text: &[u8]) -> Option<Event>
    ensures found { IfSome result (λ e. IsEvent e × (codes "deliver " ++ text.now ≡ event_line e)) }
    ensures only { (k : ℕ) (core : Option TheCore) → k < 2 ^ 64 → IfSome core IsCore
        → text.now ≡ delivery_text k core → result ≡ Some (Event.Deliver k core) }
{
    match split_first(text, b' ') {
        None => plain_delivery(text),
        Some((packet, core)) => core_delivery(packet, core),
    }
}

/// The event of what comes after the word for a timeout.
fn timeout_of(text: &[u8]) -> Option<Event>
    ensures found { IfSome result (λ e. IsEvent e × (codes "timeout " ++ text.now ≡ event_line e)) }
    ensures only { (core : TheCore) → IsCore core → text.now ≡ core_text core → result ≡ Some (Event.Timeout core) }
{
    let core = core_of(text)?;
    Some(Event::Timeout { core })
}

/// The injection of these parts.
fn injection(alloc: Global, core: &[u8], text: &[u8]) -> Result<Option<Event>, OutOfMemory>
    ensures found { IfOk result (λ o. IfSome o (λ e. IsEvent e × (codes "inject " ++ (core.now ++ 32 ∷ text.now) ≡ event_line e))) }
    ensures only { (k : TheCore) (bytes : List ℕ) → IsCore k → IsInjected bytes → core.now ≡ core_text k → text.now ≡ encode_lower bytes
        → IfOk result (λ o. o ≡ Some (Event.Inject k bytes)) }
{
    match core_of(core) {
        None => Ok(None),
        Some(core) => match bytes_of(alloc, text) {
            Err(refused) => Err(refused),
            Ok(None) => Ok(None),
            Ok(Some(bytes)) => Ok(Some(Event::Inject { core, bytes })),
        },
    }
}

/// The event of what comes after the word for an injection.
fn inject_of(alloc: Global, text: &[u8]) -> Result<Option<Event>, OutOfMemory>
    ensures found { IfOk result (λ o. IfSome o (λ e. IsEvent e × (codes "inject " ++ text.now ≡ event_line e))) }
    ensures only { (core : TheCore) (bytes : List ℕ) → IsCore core → IsInjected bytes
        → text.now ≡ core_text core ++ 32 ∷ encode_lower bytes → IfOk result (λ o. o ≡ Some (Event.Inject core bytes)) }
{
    match split_first(text, b' ') {
        None => Ok(None),
        Some((core, digits)) => injection(alloc, core, digits),
    }
}

/// The event that a line spells.
pub(crate) fn event_of(alloc: Global, line: &[u8]) -> Result<Option<Event>, OutOfMemory>
    ensures found { IfOk result (λ o. IfSome o (λ e. IsEvent e × (line.now ≡ event_line e))) }
    ensures only { (e : TheEvent) → IsEvent e → line.now ≡ event_line e → IfOk result (λ o. o ≡ Some e) }
{
    if let Some(text) = after(line, b"invoke ") {
        return Ok(invoke_of(text));
    }
    if let Some(text) = after(line, b"deliver ") {
        return Ok(deliver_of(text));
    }
    if let Some(text) = after(line, b"timeout ") {
        return Ok(timeout_of(text));
    }
    if let Some(text) = after(line, b"inject ") {
        return inject_of(alloc, text);
    }
    Ok(None)
}
