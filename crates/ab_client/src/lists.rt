//! The lists that certificates bring.

ghost use Rattle.std.specs.Prelude.{◌≡◌, ◌≤◌, All, IfOk, IfSome};
ghost use Rattle.std.specs.Option.{option_map};
ghost use Rattle.ab_hist.specs.Trimmed.{untrimmed};
ghost use Rattle.ab_msg.specs.Certs.{IsSigned};
ghost use Rattle.ab_msg.specs.Contents.{IsStopContent};
ghost use Rattle.ab_wire.specs.Views.{aborts};
ghost use Rattle.ab_abs.specs.Observations.{cert_seen};
ghost use Rattle.ab_stable.specs.Offers.{list_in, list_of};

use crate::certs::history_of;
use ab_abs::Seen;
use ab_extract::{own_cert, take_view};
use ab_form::ListRef;
use ab_hist::History;
use ab_msg::AbortCert;
use ab_num::{Cluster, OutOfMemory, Party};
use ab_stable::{are_whole, are_whole_own, list_of, list_of_own};
use ab_trim::Trimmed;
use ab_wire::SignedRef;
use std::alloc::Global;
use std::marker::Model;

/// A list that has forgotten its first `start` entries, which have that digest. Clients don't add to it.
#[derive(Drop)]
pub(crate) struct CertList {
    start: u16,
    digest: [u8; 32],
    rest: History,
}

impl Model for CertList {
    ghost use Rattle.ab_hist.specs.Trimmed.{Trimmed as ForgottenList};

    ghost Value = { ForgottenList };

    ghost view = { λ l. record { start = l.start; digest = l.digest; rest = l.rest } };
}

impl CertList {
    /// A history, of which nothing is forgotten.
    fn whole(h: History) -> CertList
        ensures { result ≡ untrimmed h }
    {
        CertList {
            start: 0,
            digest: [0; 32],
            rest: h,
        }
    }

    /// The list on which the ABORTs of a certificate agree.
    fn of(alloc: Global, t: &Trimmed) -> Result<CertList, OutOfMemory>
        ensures { IfOk result (λ l. l ≡ t.now.list) }
    {
        let rest = t.rest(alloc)?;
        Ok(CertList {
            start: t.start() as u16,
            digest: t.digest(),
            rest,
        })
    }

    /// What is observed as party `p` takes a certificate of instance `j` that brings it.
    pub(crate) fn seen(self, j: u32, p: Party) -> Seen
        ensures { result ≡ cert_seen j p self }
    {
        let CertList {
            start,
            digest,
            rest,
        } = self;
        if start == 0 {
            return Seen::Cert { i: j, p, h: rest };
        }
        Seen::TrimmedCert {
            i: j,
            p,
            start,
            digest,
            rest,
        }
    }
}

/// The list that a certificate of instance `j` brings. None exactly if it brings none.
pub(crate) fn list_in(
    alloc: Global,
    c: &Cluster,
    j: u32,
    cert: &AbortCert,
) -> Result<Option<CertList>, OutOfMemory>
    requires instance { 1 ≤ j }
    requires aborts { All (IsSigned IsStopContent) cert.now }
    ensures { IfOk result (λ o. o ≡ list_in c.now j cert.now) }
{
    if are_whole_own(cert.as_slice()) {
        return match history_of(alloc, c, j, cert)? {
            Some(h) => Ok(Some(CertList::whole(h))),
            None => Ok(None),
        };
    }
    match list_of_own(alloc, c, j, cert.as_slice())? {
        Some(t) => {
            let list = CertList::of(alloc, &t)?;
            Ok(Some(list))
        }
        None => Ok(None),
    }
}

/// The list on which a certificate of instance `j` in received bytes agrees, and a copy of the certificate. What several of its logs
/// have in common with that list is not hashed again.
fn take_trimmed<'a>(
    alloc: Global,
    c: &Cluster,
    j: u32,
    cert: &ListRef<'a, SignedRef<'a>>,
) -> Result<Option<(CertList, AbortCert)>, OutOfMemory>
    requires instance { 1 ≤ j }
    requires formed { All (IsSigned IsStopContent) (aborts cert.now) }
    ensures list { IfOk result (λ o. option_map (λ x. x.0) o ≡ list_of c.now j (aborts cert.now)) }
    ensures cert { IfOk result (λ o. IfSome o (λ x. x.1 ≡ aborts cert.now)) }
{
    let Some(t) = list_of(alloc, c, j, cert)? else {
        return Ok(None);
    };
    let list = CertList::of(alloc, &t)?;
    let own = own_cert(alloc, cert, &list.rest)?;
    Ok(Some((list, own)))
}

/// The list that a certificate of instance `j` in received bytes brings, and a copy of the certificate. None exactly if it brings none;
/// then nothing was copied. What its first whole log has in common with `like` is not hashed again.
pub(crate) fn take_list<'a>(
    alloc: Global,
    c: &Cluster,
    j: u32,
    cert: &ListRef<'a, SignedRef<'a>>,
    like: Option<&History>,
) -> Result<Option<(CertList, AbortCert)>, OutOfMemory>
    requires instance { 1 ≤ j }
    requires formed { All (IsSigned IsStopContent) (aborts cert.now) }
    ensures list { IfOk result (λ o. option_map (λ x. x.0) o ≡ list_in c.now j (aborts cert.now)) }
    ensures cert { IfOk result (λ o. IfSome o (λ x. x.1 ≡ aborts cert.now)) }
{
    if !are_whole(cert) {
        return take_trimmed(alloc, c, j, cert);
    }
    match take_view(alloc, c, j, cert, like)? {
        Some((h, own)) => Ok(Some((CertList::whole(h), own))),
        None => Ok(None),
    }
}
