//! The marks of a report's lines.

ghost use Rattle.std.specs.Prelude.{◌≡◌, IfOk, map};
ghost use Rattle.ab_picture.specs.Pictures.{mark_of};

use crate::picture::{Mark, Sign};
use ab_num::{OutOfMemory, Party};
use ab_text::Line;
use arrayvec::ArrayVec;
use std::alloc::Global;

/// The same bytes.
fn copied(reply: &ArrayVec<u8, 72>) -> ArrayVec<u8, 72>
    ensures { result ≡ reply.now }
{
    let mut copy = ArrayVec::new();
    match copy.try_extend_from_slice(reply.as_slice()) {
        Ok(()) => copy,
        Err(_) => unreachable!(),
    }
}

/// The mark of a line.
fn mark_of(line: &Line) -> Mark
    ensures { result ≡ mark_of line.now }
{
    match line {
        Line::Refused {
            event,
            party,
            cause,
        } => Mark {
            event: *event,
            party: *party,
            sign: Sign::Refused(*cause),
        },
        Line::Cert {
            event,
            party,
            instance,
            start: _,
            entries: _,
        } => Mark {
            event: *event,
            party: *party,
            sign: Sign::Certified {
                instance: *instance,
            },
        },
        Line::Init {
            event,
            replica,
            instance,
            start: _,
            entries: _,
        } => Mark {
            event: *event,
            party: Party::Replica(*replica),
            sign: Sign::Entered {
                instance: *instance,
            },
        },
        Line::Invoked {
            event,
            client,
            instance,
            stamp,
        } => Mark {
            event: *event,
            party: Party::Client(*client),
            sign: Sign::Invoked {
                instance: *instance,
                stamp: *stamp,
            },
        },
        Line::Commit {
            event,
            client,
            instance,
            stamp: _,
            n,
            reply,
        } => Mark {
            event: *event,
            party: Party::Client(*client),
            sign: Sign::Committed {
                instance: *instance,
                n: *n,
                reply: copied(reply),
            },
        },
        Line::Spent { event, replica } => Mark {
            event: *event,
            party: Party::Replica(*replica),
            sign: Sign::Spent,
        },
    }
}

/// A mark for each line, in their order.
pub(crate) fn marks(alloc: Global, lines: &[Line]) -> Result<Vec<Mark>, OutOfMemory>
    ensures { IfOk result (λ v. v.items ≡ map mark_of lines.now) }
{
    let mut all = Vec::new(alloc);
    for line in lines {
        all.push(mark_of(line))?;
    }
    Ok(all)
}
