//! Pieces are joined.

ghost use Rattle.std.specs.Prelude.{◌≡◌, ◌<◌, ◌≤◌, [], IfOk, IfSome, OnErr, length, slice_index_or};
ghost use Rattle.std.specs.List.{count_by, position};
ghost use Rattle.ab_piece.specs.Views.{piece};
ghost use Rattle.ab_piece.specs.Joining.{answer_of, crowded_out, further_step, is_from, is_of, opened, opening_step, step_of, without};

use crate::open_message::OpenMessage;
use crate::reading::{PieceRef, read_piece};
use crate::taken::{DropCause, Taken};
use ab_num::{OutOfMemory, Party};
use std::alloc::Global;
use std::marker::Model;

/// How many open messages of one sender are kept.
const MOST_OPEN: usize = 8;

/// The messages of which some pieces came and some are missing, at most eight of a sender.
#[derive(Drop)]
pub struct Joiner {
    open: Vec<OpenMessage>,
}

/// It is seen as the list of the open messages. The one whose first piece came first is at the front.
impl Model for Joiner {
    ghost use Rattle.std.specs.Prelude.{List};
    ghost use Rattle.ab_piece.specs.Joining.{OpenMessage as Opened};

    ghost Value = { List Opened };

    ghost view = { λ j. j.open.items };
}

/// Where the message of this sender and number stands.
fn place_of(messages: &[OpenMessage], sender: Party, number: u64) -> Option<usize>
    ensures { result ≡ position (is_of sender number) messages.now }
{
    messages.iter().position(|o| o.is_of(sender, number))
}

/// Where the first message of this sender stands.
fn first_from(messages: &[OpenMessage], sender: Party) -> Option<usize>
    ensures { result ≡ position (is_from sender) messages.now }
{
    messages.iter().position(|o| o.is_from(sender))
}

/// How many messages of this sender there are.
fn count_from(messages: &[OpenMessage], sender: Party) -> usize
    ensures { result ≡ count_by (is_from sender) messages.now }
{
    messages.iter().filter(|o| o.is_from(sender)).count()
}

/// Where the sender's oldest message stands, where a further one would be too many.
fn crowded_out(messages: &[OpenMessage], sender: Party) -> Option<usize>
    ensures place { result ≡ crowded_out sender messages.now }
    ensures bound { IfSome result (λ at. at < length messages.now) }
{
    if count_from(messages, sender) < MOST_OPEN {
        None
    } else {
        first_from(messages, sender)
    }
}

/// Removes the message at this place, if there is one.
fn remove_at(messages: &mut Vec<OpenMessage>, place: Option<usize>)
    requires { IfSome place (λ at. at < length messages.old.items) }
    ensures { messages.new.items ≡ without place messages.old.items }
{
    if let Some(at) = place {
        messages.remove(at);
    }
}

impl Joiner {
    /// No message is open.
    pub fn new(alloc: Global) -> Joiner
        ensures { result ≡ [] }
    {
        Joiner {
            open: Vec::new(alloc),
        }
    }

    /// Takes a datagram. After an `Err` nothing has changed.
    #[tactic(auto, unfolding(crate::specs::Joining::step_of))]
    pub fn take(&mut self, alloc: Global, datagram: &[u8]) -> Result<Taken, OutOfMemory>
        ensures answer { IfOk result (λ taken. answer_of taken ≡ (step_of self.old datagram.now).answer) }
        ensures after { IfOk result (λ taken. self.new ≡ (step_of self.old datagram.now).after) }
        ensures err { OnErr result (self.new ≡ self.old) }
    {
        let Ok(piece) = read_piece(datagram) else {
            return Ok(Taken::Dropped(DropCause::Header));
        };
        match place_of(self.open.as_slice(), piece.sender, piece.number) {
            Some(at) => self.go_on(alloc, at, &piece),
            None => self.begin(alloc, &piece),
        }
    }

    /// Takes a piece of the open message at this place.
    fn go_on(&mut self, alloc: Global, at: usize, p: &PieceRef<'_>) -> Result<Taken, OutOfMemory>
        requires place { at < length self.old }
        requires index { p.now.index < p.now.count }
        requires count { p.now.count ≤ 512 }
        ensures answer { IfOk result (λ taken. answer_of taken ≡ (further_step self.old at (slice_index_or self.old at (opened (piece p.now))) (piece p.now)).answer) }
        ensures after { IfOk result (λ taken. self.new ≡ (further_step self.old at (slice_index_or self.old at (opened (piece p.now))) (piece p.now)).after) }
        ensures err { OnErr result (self.new ≡ self.old) }
    {
        let index = usize::from(p.index);
        let message = &mut self.open[at];
        if message.count() != usize::from(p.count) {
            return Ok(Taken::Dropped(DropCause::Differs));
        }
        if message.has(index) {
            return Ok(Taken::Dropped(DropCause::Again));
        }
        if message.missing() == 1 {
            let whole = message.whole(alloc, index, p.body)?;
            self.open.remove(at);
            return Ok(Taken::Whole(whole));
        }
        message.keep(alloc, index, p.body)?;
        Ok(Taken::More)
    }

    /// Takes a piece of a message that isn't open.
    #[tactic(auto, using(crate::proofs::PieceLemmas::without_before))]
    fn begin(&mut self, alloc: Global, p: &PieceRef<'_>) -> Result<Taken, OutOfMemory>
        requires index { p.now.index < p.now.count }
        requires count { p.now.count ≤ 512 }
        ensures answer { IfOk result (λ taken. answer_of taken ≡ (opening_step self.old (piece p.now)).answer) }
        ensures after { IfOk result (λ taken. self.new ≡ (opening_step self.old (piece p.now)).after) }
        ensures err { OnErr result (self.new ≡ self.old) }
    {
        if p.count == 1 {
            return Ok(Taken::Whole(Vec::from_slice(alloc, p.body)?));
        }
        let message = OpenMessage::new(alloc, p)?;
        let crowded_out = crowded_out(self.open.as_slice(), p.sender);
        self.open.push(message)?;
        remove_at(&mut self.open, crowded_out);
        Ok(Taken::More)
    }
}
