//! Messages are cut into pieces.

ghost use Rattle.std.specs.Prelude.{◌≡◌, ◌++◌, ◌+◌, ◌*◌, ◌<◌, ◌≤◌, IfOk, OnOk, length, slice_index_or};
ghost use Rattle.ab_num.specs.Limits.{longest_message};
ghost use Rattle.ab_msg.specs.Fields.{IsParty};
ghost use Rattle.ab_piece.specs.Pieces.{body_size, count_of, cut_at, cut_of, part_at, spell_header};

use crate::datagram::Datagram;
use crate::reading::BODY;
use ab_form::{put_bytes, put_u8, put_u16, put_u64};
use ab_num::{OutOfMemory, Party};
use ab_write::put_party;
use std::alloc::Global;
use std::marker::Model;

/// The pieces of a message, by ascending index.
#[derive(Drop)]
pub struct Pieces {
    pieces: Vec<Datagram>,
}

/// They are seen as the list of their bytes.
impl Model for Pieces {
    ghost use Rattle.std.specs.Prelude.{List, ℕ};

    ghost Value = { List (List ℕ) };

    ghost view = { λ p. p.pieces.items };
}

impl Pieces {
    /// How many there are.
    pub fn len(&self) -> usize
        ensures { result ≡ length self.now }
    {
        self.pieces.len()
    }

    /// The bytes of the piece of this index.
    pub fn get(&self, index: usize) -> &[u8]
        requires { index < length self.now }
        ensures { result.now ≡ slice_index_or self.now index result.now }
    {
        self.pieces[index].bytes()
    }
}

/// A piece.
fn piece(
    alloc: Global,
    me: Party,
    number: u64,
    index: u16,
    count: u16,
    body: &[u8],
) -> Result<Vec<u8>, OutOfMemory>
    requires { length body.now ≤ body_size }
    ensures { IfOk result (λ v. v.items ≡ spell_header (record { sender = me; number = number; index = index; count = count }) ++ body.now) }
{
    let mut out = Vec::with_capacity(alloc, 16 + body.len())?;
    put_u8(alloc, &mut out, 1)?;
    put_party(alloc, &mut out, me)?;
    put_u64(alloc, &mut out, number)?;
    put_u16(alloc, &mut out, index)?;
    put_u16(alloc, &mut out, count)?;
    put_bytes(alloc, &mut out, body)?;
    Ok(out)
}

/// What the piece of this index has of the message.
#[tactic(auto, using(std::proofs::lemmas::List::take_min))]
fn part(message: &[u8], index: usize) -> &[u8]
    requires { (body_size * index < length message.now) × (index < 512) }
    ensures value { result.now ≡ part_at message.now index }
    ensures size { length result.now ≤ body_size }
{
    let (_, rest) = message.split_at(BODY * index);
    &rest[..BODY.min(rest.len())]
}

/// How many pieces a message has.
fn count_of(size: usize) -> usize
    requires { size ≤ longest_message }
    ensures { result ≡ count_of size }
{
    (size + (BODY - 1)) / BODY
}

/// The piece of this index.
#[tactic(auto, unfolding(crate::specs::Pieces::cut_at))]
fn piece_at(
    alloc: Global,
    me: Party,
    number: u64,
    message: &[u8],
    index: usize,
) -> Result<Vec<u8>, OutOfMemory>
    requires size { length message.now ≤ longest_message }
    requires index { index < count_of (length message.now) }
    ensures { IfOk result (λ v. v.items ≡ cut_at me number message.now index) }
{
    let count = count_of(message.len());
    let part = part(message, index);
    piece(alloc, me, number, index as u16, count as u16, part)
}

/// The pieces of a message of 1 to 4,194,304 bytes, which `me` sends as its message of this number.
#[tactic(auto, using(crate::proofs::PieceLemmas::next_piece))]
pub fn cut(alloc: Global, me: Party, number: u64, bytes: &[u8]) -> Result<Pieces, OutOfMemory>
    requires some { 1 ≤ length bytes.now }
    requires few { length bytes.now ≤ longest_message }
    requires me { IsParty me }
    ensures { IfOk result (λ p. p ≡ cut_of me number bytes.now) }
{
    let count = count_of(bytes.len());
    let mut pieces = Vec::with_capacity(alloc, count)?;
    for index in 0..count {
        let piece = piece_at(alloc, me, number, bytes, index)?;
        pieces.push(Datagram::new(piece))?;
    }
    Ok(Pieces { pieces })
}
