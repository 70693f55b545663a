//! A message of which pieces are missing.

ghost use Rattle.std.specs.Prelude.{◌≡◌, ◌<◌, ◌≤◌, IfOk, OnOk, OnErr, length, replicate, set, is_some, false, slice_index_or, None, Some};
ghost use Rattle.ab_piece.specs.Views.{piece};
ghost use Rattle.ab_piece.specs.Joining.{body_in, is_from, is_of, message_of, missing, opened, with_body};

use crate::datagram::Datagram;
use crate::reading::{BODY, PieceRef};
use ab_num::{OutOfMemory, Party};
use std::alloc::Global;
use std::marker::Model;

/// A message of which pieces were kept, each at its index.
#[derive(Drop)]
pub(crate) struct OpenMessage {
    sender: Party,
    number: u64,
    left: usize,
    bodies: Vec<Option<Datagram>>,
}

/// It is seen as its sender, its number and the bodies that came.
impl Model for OpenMessage {
    ghost use Rattle.std.specs.Prelude.{◌≡◌};
    ghost use Rattle.ab_piece.specs.Joining.{OpenMessage as Opened, missing};

    ghost Value = { Opened };

    ghost view = { λ o. record { sender = o.sender; number = o.number; bodies = o.bodies.items } };

    ghost invariant = { λ o. o.left ≡ missing o.bodies.items };
}

/// So many places without a body.
fn places(alloc: Global, count: usize) -> Result<Vec<Option<Datagram>>, OutOfMemory>
    ensures { IfOk result (λ v. v.items ≡ replicate count None) }
{
    let mut bodies = Vec::with_capacity(alloc, count)?;
    'places: for _i in 0..count {
        bodies.push(None)?;
    }
    Ok(bodies)
}

impl OpenMessage {
    /// The message that a first piece opens.
    pub(crate) fn new(alloc: Global, p: &PieceRef<'_>) -> Result<OpenMessage, OutOfMemory>
        requires { p.now.index < p.now.count }
        ensures { IfOk result (λ o. o ≡ opened (piece p.now)) }
    {
        let mut bodies = places(alloc, usize::from(p.count))?;
        bodies[usize::from(p.index)] = Some(Datagram::copy_of(alloc, p.body)?);
        Ok(OpenMessage {
            sender: p.sender,
            number: p.number,
            left: usize::from(p.count) - 1,
            bodies,
        })
    }

    pub(crate) fn is_from(&self, sender: Party) -> bool
        ensures { result ≡ is_from sender self.now }
    {
        self.sender == sender
    }

    pub(crate) fn is_of(&self, sender: Party, number: u64) -> bool
        ensures { result ≡ is_of sender number self.now }
    {
        self.sender == sender && self.number == number
    }

    /// How many pieces the message has.
    pub(crate) fn count(&self) -> usize
        ensures { result ≡ length self.now.bodies }
    {
        self.bodies.len()
    }

    /// How many pieces are missing.
    pub(crate) fn missing(&self) -> usize
        ensures { result ≡ missing self.now.bodies }
    {
        self.left
    }

    /// Whether the piece of this index is there.
    pub(crate) fn has(&self, index: usize) -> bool
        requires { index < length self.now.bodies }
        ensures { result ≡ is_some (slice_index_or self.now.bodies index None) }
    {
        self.bodies[index].is_some()
    }

    /// Keeps the body of a piece that is missing.
    pub(crate) fn keep(
        &mut self,
        alloc: Global,
        index: usize,
        body: &[u8],
    ) -> Result<(), OutOfMemory>
        requires place { index < length self.old.bodies }
        requires missing { is_some (slice_index_or self.old.bodies index None) ≡ false }
        ensures ok { OnOk result (self.new ≡ with_body self.old index body.now) }
        ensures err { OnErr result (self.new ≡ self.old) }
    {
        let body = Datagram::copy_of(alloc, body)?;
        self.left -= 1;
        self.bodies[index] = Some(body);
        Ok(())
    }

    /// The body at this place where this one is put at its index, and nothing where it is missing.
    fn body_at<'a>(&'a self, i: usize, index: usize, body: &'a [u8]) -> &'a [u8]
        requires { i < length self.now.bodies }
        ensures { result.now ≡ body_in (set self.now.bodies index (Some body.now)) i }
    {
        if i == index {
            return body;
        }
        match &self.bodies[i] {
            Some(kept) => kept.bytes(),
            None => &[],
        }
    }

    /// The whole message with this body at its index, copied once.
    #[tactic(auto, using(crate::proofs::PieceLemmas::message_of_more))]
    pub(crate) fn whole(
        &self,
        alloc: Global,
        index: usize,
        body: &[u8],
    ) -> Result<Vec<u8>, OutOfMemory>
        requires count { length self.now.bodies ≤ 512 }
        ensures { IfOk result (λ v. v.items ≡ message_of (set self.now.bodies index (Some body.now))) }
    {
        let mut whole = Vec::with_capacity(alloc, self.bodies.len() * BODY)?;
        'bodies: for i in 0..self.bodies.len() {
            whole.extend_from_slice(self.body_at(i, index, body))?;
        }
        Ok(whole)
    }
}
