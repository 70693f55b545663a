//! Pieces, read from bytes.

ghost use Rattle.std.specs.Prelude.{◌≡◌, ◌<◌, ◌≤◌, IfOk};
ghost use Rattle.std.specs.Bool.{OnTrue};
ghost use Rattle.ab_form.specs.Readers.{Gives};
ghost use Rattle.ab_piece.specs.Pieces.{header_at, piece_of, body_fits};
ghost use Rattle.ab_piece.specs.Views.{header, piece};

use ab_content::party_at;
use ab_form::{Bad, ranged_u8, ranged_u16, ranged_u64};
use ab_num::Party;

/// The most bytes of a message that a piece has.
pub(crate) const BODY: usize = 8192;

/// What stands before the body.
#[derive(Clone, Copy)]
pub(crate) struct HeaderRef {
    pub(crate) sender: Party,
    pub(crate) number: u64,
    pub(crate) index: u16,
    pub(crate) count: u16,
}

/// A piece whose body stands in bytes that were received.
#[derive(Clone, Copy)]
pub(crate) struct PieceRef<'a> {
    pub(crate) sender: Party,
    pub(crate) number: u64,
    pub(crate) index: u16,
    pub(crate) count: u16,
    pub(crate) body: &'a [u8],
}

#[tactic(auto, unfolding(crate::specs::Pieces::header_at))]
fn header_at(bytes: &[u8]) -> Result<(HeaderRef, &[u8]), Bad>
    ensures exact { Gives (λ x. (header x.0, x.1.now)) result (header_at bytes.now) }
    ensures count { IfOk result (λ x. x.0.count ≤ 512) }
{
    let (_, rest) = ranged_u8(1, 1, Bad::BadField, bytes)?;
    let (sender, rest) = party_at(rest)?;
    let (number, rest) = ranged_u64(0, u64::MAX, Bad::BadField, rest)?;
    let (index, rest) = ranged_u16(0, u16::MAX, Bad::BadField, rest)?;
    let (count, rest) = ranged_u16(1, 512, Bad::BadLength, rest)?;
    Ok((
        HeaderRef {
            sender,
            number,
            index,
            count,
        },
        rest,
    ))
}

/// Whether a piece may have a body of so many bytes.
fn body_fits(index: u16, count: u16, size: usize) -> bool
    ensures exact { result ≡ body_fits index count size }
    ensures below { OnTrue result (index < count) }
{
    if index >= count {
        return false;
    }
    if index + 1 == count {
        1 <= size && size <= BODY
    } else {
        size == BODY
    }
}

/// The piece that the bytes are, or what is wrong with them.
#[tactic(auto, unfolding(crate::specs::Pieces::piece_of))]
pub(crate) fn read_piece(bytes: &[u8]) -> Result<PieceRef<'_>, Bad>
    ensures exact { Gives (λ p. piece p) result (piece_of bytes.now) }
    ensures place { IfOk result (λ p. (p.index < p.count) × (p.count ≤ 512)) }
{
    let (header, body) = header_at(bytes)?;
    if !body_fits(header.index, header.count, body.len()) {
        return Err(Bad::BadLength);
    }
    Ok(PieceRef {
        sender: header.sender,
        number: header.number,
        index: header.index,
        count: header.count,
        body,
    })
}
