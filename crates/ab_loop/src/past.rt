//! The events of a party as the bodies of a journal, and those of its earlier runs.

ghost use Rattle.std.specs.Prelude.{◌≡◌, ◌≤◌, ◌<◌, ◌&&◌, [], ◌∷◌, ℕ, List, length, nat_le, ◌==◌, IfOk, IfErr, IfSome, MatchOption, All, slice_get};
ghost use Rattle.std.specs.declared.option.Option.TheVariants.{Some};
ghost use Rattle.std.specs.Option.{option_map};
ghost use Rattle.ab_loop.specs.Cores.{NodeEvent, event_of};
ghost use Rattle.ab_loop.specs.Past.{IsEvent, IsFirstForeign, IsSpelled, Spell, body_of, event_in, texts_of};

use crate::party_core::NodeEventRef;
use ab_num::{LONGEST_MESSAGE, OutOfMemory};
use std::alloc::Global;
use std::marker::Model;

const LONGEST_COMMAND: usize = 128;

/// An event as a body.
pub(crate) fn body_of(alloc: Global, input: &NodeEventRef<'_>) -> Result<Vec<u8>, OutOfMemory>
    ensures { IfOk result (λ body. body.items ≡ body_of (event_of input.now)) }
{
    match input {
        NodeEventRef::Invoke(command) => coded(alloc, 1, command),
        NodeEventRef::Message(bytes) => coded(alloc, 2, bytes),
        NodeEventRef::Timeout => coded(alloc, 3, &[]),
    }
}

/// A code and these bytes.
fn coded(alloc: Global, code: u8, bytes: &[u8]) -> Result<Vec<u8>, OutOfMemory>
    ensures { IfOk result (λ body. body.items ≡ code ∷ bytes.now) }
{
    let mut body = Vec::with_capacity(alloc, bytes.len().saturating_add(1))?;
    body.push(code)?;
    body.extend_from_slice(bytes)?;
    Ok(body)
}

/// Whether there is a byte, and at most so many.
fn is_sized(most: usize, bytes: &[u8]) -> bool
    ensures { result ≡ nat_le 1 (length bytes.now) && nat_le (length bytes.now) most }
{
    !bytes.is_empty() && bytes.len() <= most
}

/// The event that a body spells.
#[tactic(auto, unfolding(crate::specs::Past::event_in))]
fn event_in(body: &[u8]) -> Option<NodeEventRef<'_>>
    ensures { option_map event_of result ≡ event_in body.now }
{
    match body.split_first() {
        None => None,
        Some((code, bytes)) => event_with(*code, bytes),
    }
}

/// The event with this code and these bytes.
#[tactic(auto, unfolding(crate::specs::Past::event_in))]
fn event_with(code: u8, bytes: &[u8]) -> Option<NodeEventRef<'_>>
    ensures { option_map event_of result ≡ event_in (code ∷ bytes.now) }
{
    match code {
        1 => {
            if is_sized(LONGEST_COMMAND, bytes) {
                Some(NodeEventRef::Invoke(bytes))
            } else {
                None
            }
        }
        2 => {
            if is_sized(LONGEST_MESSAGE, bytes) {
                Some(NodeEventRef::Message(bytes))
            } else {
                None
            }
        }
        3 => {
            if bytes.is_empty() {
                Some(NodeEventRef::Timeout)
            } else {
                None
            }
        }
        _ => None,
    }
}

/// The place, from 1, of the first body that spells no event.
fn first_foreign(bodies: &[Vec<u8>]) -> Option<u64>
    ensures first { MatchOption result (All IsSpelled bodies.now) (λ n. IsFirstForeign (texts_of bodies.now) n) }
    ensures within { IfSome result (λ n. (1 ≤ n) × (n ≤ length bodies.now)) }
{
    'bodies: for index in 0..bodies.len() {
        if event_in(&bodies[index]).is_none() {
            return Some(index as u64 + 1);
        }
    }
    None
}

/// The events of a party's earlier runs, in the bodies that they were read as.
#[derive(Drop)]
pub struct Past {
    bodies: Vec<Vec<u8>>,
}

/// It is seen as the list of the events.
impl Model for Past {
    ghost use Rattle.std.specs.Prelude.{List, All, map};
    ghost use Rattle.ab_loop.specs.Cores.{NodeEvent};
    ghost use Rattle.ab_loop.specs.Past.{IsSpelled, event_spelled};

    ghost Value = { List NodeEvent };

    ghost view = { λ p. map (λ body. event_spelled body.items) p.bodies.items };

    ghost invariant = { λ p. All IsSpelled p.bodies.items };
}

impl Past {
    /// No events. Nothing is allocated.
    pub fn none(alloc: Global) -> Past
        ensures { result ≡ [] }
    {
        Past {
            bodies: Vec::new(alloc),
        }
    }

    /// The events that these bodies spell. `Err` is the place, from 1, of the first that spells none.
    pub fn read(bodies: Vec<Vec<u8>>) -> Result<Past, u64>
        ensures ok { IfOk result (λ past. Spell (texts_of bodies.items) past) }
        ensures err { IfErr result (λ n. IsFirstForeign (texts_of bodies.items) n) }
        ensures within { IfErr result (λ n. (1 ≤ n) × (n ≤ length bodies.items)) }
    {
        match first_foreign(&bodies) {
            None => Ok(Past { bodies }),
            Some(n) => Err(n),
        }
    }

    /// How many there are.
    pub fn len(&self) -> usize
        ensures { result ≡ length self.now }
    {
        self.bodies.len()
    }

    /// Whether there is none.
    pub fn is_empty(&self) -> bool
        ensures { result ≡ (length self.now == 0) }
    {
        self.bodies.is_empty()
    }

    /// The event of this index.
    pub fn get(&self, index: usize) -> NodeEventRef<'_>
        requires { index < length self.now }
        ensures event { slice_get self.now index ≡ Some (event_of result) }
        ensures lengths { IsEvent (event_of result) }
    {
        match event_in(&self.bodies[index]) {
            Some(event) => event,
            None => NodeEventRef::Timeout,
        }
    }
}

/// A body that an event makes spells it again, and no other body does.
pub fn bodies_spell_events()
    ensures spelled { (e : NodeEvent) → IsEvent e → event_in (body_of e) ≡ Some e }
    ensures alone { (body : List ℕ) (e : NodeEvent) → event_in body ≡ Some e → (body ≡ body_of e) × IsEvent e }
{}
