//! Certificates of equal answers that stand in received bytes.

ghost use Rattle.std.specs.Prelude.{◌≡◌, IfOk};
ghost use Rattle.std.specs.Option.{option_map};
ghost use Rattle.ab_form.specs.Lists.{FitsInside, optional_at};
ghost use Rattle.ab_form.specs.Readers.{Gives};
ghost use Rattle.ab_msg.specs.Contents.{IsZcert};
ghost use Rattle.ab_content.specs.Rows.{zcert_at};
ghost use Rattle.ab_content.specs.Views.{zcert};

use crate::parts::stamp_at;
use crate::sig_ref::SignerRef;
use ab_form::{Bad, ListRef, array_at, list_at, own_list, ranged_u8, ranged_u16, text_u8};
use ab_hist::array_of;
use ab_msg::{Signatures, Zcert};
use ab_num::OutOfMemory;
use std::alloc::Global;

/// The answer that some replicas gave alike, as [`ab_msg::Zcert`].
#[derive(Clone, Copy, Debug)]
pub struct ZcertRef<'a> {
    pub client: u16,
    pub stamp: u64,
    pub n: u16,
    pub d: &'a [u8; 32],
    pub reply: &'a [u8],
    pub sigs: ListRef<'a, SignerRef<'a>>,
}

/// A certificate of 1 to 7 signatures.
#[tactic(auto, unfolding(crate::specs::Rows::zcert_at))]
pub fn zcert_at(bytes: &[u8]) -> Result<(ZcertRef<'_>, &[u8]), Bad>
    ensures { Gives (λ x. (zcert x.0, x.1.now)) result (zcert_at bytes.now) }
{
    let (client, rest) = ranged_u16(0, 15, Bad::BadField, bytes)?;
    let (stamp, rest) = stamp_at(rest)?;
    let (n, rest) = ranged_u16(1, 65535, Bad::BadField, rest)?;
    let (d, rest) = array_at(rest)?;
    let (reply, rest) = text_u8(0, 72, rest)?;
    let (count, rest) = ranged_u8(1, 7, Bad::BadLength, rest)?;
    let (sigs, rest) = list_at::<SignerRef<'_>>(u16::from(count), rest)?;
    Ok((
        ZcertRef {
            client,
            stamp,
            n,
            d,
            reply,
            sigs,
        },
        rest,
    ))
}

/// The byte 0 where there is none, and otherwise the byte 1 and the certificate.
pub(crate) fn kept_at(bytes: &[u8]) -> Result<(Option<ZcertRef<'_>>, &[u8]), Bad>
    ensures { Gives (λ x. (option_map zcert x.0, x.1.now)) result (optional_at zcert_at bytes.now) }
{
    let (flag, rest) = ranged_u8(0, 1, Bad::BadField, bytes)?;
    if flag == 0 {
        return Ok((None, rest));
    }
    let (zcert, rest) = zcert_at(rest)?;
    Ok((Some(zcert), rest))
}

impl<'a> ZcertRef<'a> {
    /// The same certificate, with parts of its own.
    pub fn own(self, alloc: Global) -> Result<Zcert, OutOfMemory>
        requires { IsZcert (zcert self) }
        ensures { IfOk result (λ z. z ≡ zcert self.entry) }
    {
        let sigs = own_list(alloc, self.sigs)?;
        Ok(Zcert {
            client: self.client,
            stamp: self.stamp,
            n: self.n,
            d: *self.d,
            reply: array_of(self.reply),
            sigs: Signatures::of(sigs),
        })
    }
}

/// The same certificate, if there is one.
pub(crate) fn own_kept(
    alloc: Global,
    kept: Option<ZcertRef<'_>>,
) -> Result<Option<Zcert>, OutOfMemory>
    requires { FitsInside IsZcert (option_map zcert kept) }
    ensures { IfOk result (λ z. z ≡ option_map zcert kept.entry) }
{
    match kept {
        Some(zcert) => {
            let zcert = zcert.own(alloc)?;
            Ok(Some(zcert))
        }
        None => Ok(None),
    }
}
