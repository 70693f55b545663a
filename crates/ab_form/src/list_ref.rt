//! Lists of parts that stand in received bytes.

ghost use Rattle.std.specs.Prelude.{◌≡◌, length};
ghost use Rattle.ab_form.specs.Readers.{Gives, listed};
ghost use Rattle.ab_form.specs.Lists.{times};

use crate::bad::Bad;
use crate::part::Part;
use std::marker::PhantomData;

/// Parts one after the other from the front of the bytes. They are read again at each `next`.
#[derive(Clone, Copy, Debug)]
pub struct ListRef<'a, P> {
    pub(crate) count: u16,
    pub(crate) bytes: &'a [u8],
    pub(crate) of: PhantomData<P>,
}

impl<'a, P: Part<'a>> Iterator for ListRef<'a, P> {
    ghost use Rattle.std.specs.Prelude.{IfSome};
    ghost use Rattle.std.specs.Iterator.{YieldsFirstBy, item_count};

    type Item = P;

    ghost next_gives = { λ l part after. YieldsFirstBy P.seen (λ l. listed P.reader l.count l.bytes.now) l part after × IfSome part P.Kept };

    ghost remaining = { item_count (λ l. listed P.reader l.count l.bytes.now) };

    #[tactic(auto, unfolding(crate::specs::Readers::listed))]
    fn next(&mut self) -> Option<P> {
        if self.count == 0 {
            return None;
        }
        match P::read_part(self.bytes) {
            Ok((part, rest)) => {
                self.count -= 1;
                self.bytes = rest;
                Some(part)
            }
            Err(_) => None,
        }
    }
}

impl<'a, P> ListRef<'a, P> {
    /// So many parts at the front of the bytes.
    pub fn of(count: u16, bytes: &'a [u8]) -> ListRef<'a, P>
        ensures count { result.count ≡ count }
        ensures bytes { result.bytes ≡ bytes.entry }
    {
        ListRef {
            count,
            bytes,
            of: PhantomData,
        }
    }
}

impl<'a, P: Part<'a>> ListRef<'a, P> {
    /// How many parts it goes over.
    pub fn len(&self) -> u16
        ensures { result ≡ length (listed P.reader self.now.count self.now.bytes.now) }
    {
        let mut n = 0;
        'parts: for _ in *self {
            n += 1;
        }
        n
    }
}

/// Goes over parts, and gives the bytes behind them.
fn list_end<'a, P: Part<'a>>(count: u16, bytes: &'a [u8]) -> Result<&'a [u8], Bad>
    ensures { Gives (λ x. (listed P.reader count bytes.now, x.now)) result (times P.reader count bytes.now) }
{
    let mut rest = bytes;
    'parts: for _ in 0..count {
        let (_, behind) = P::read_part(rest)?;
        rest = behind;
    }
    Ok(rest)
}

/// So many parts.
pub fn list_at<'a, P: Part<'a>>(
    count: u16,
    bytes: &'a [u8],
) -> Result<(ListRef<'a, P>, &'a [u8]), Bad>
    ensures { Gives (λ x. (listed P.reader x.0.count x.0.bytes.now, x.1.now)) result (times P.reader count bytes.now) }
{
    let rest = list_end::<P>(count, bytes)?;
    Ok((
        ListRef {
            count,
            bytes,
            of: PhantomData,
        },
        rest,
    ))
}
