//! The certificate of answers that a client can make of signed votes.

ghost use Rattle.std.specs.Prelude.{◌≡◌, ◌+◌, ◌*◌, ◌<◌, ◌≤◌, None, if◌then◌else◌, length, map, IfOk};
ghost use Rattle.std.specs.Option.{option_map};
ghost use Rattle.ab_abs.specs.Votes.{voted};
ghost use Rattle.ab_run.specs.Asking.{sig_of, sigs_below, teller, zcert_among, zcert_of_sigs};
ghost use Rattle.ab_content.specs.Views.{content as shown};

use ab_abs::{Ballot, Votes};
use ab_content::ContentRef;
use ab_hist::{Request, copy_reply};
use ab_msg::{Copied, Sig, Signatures, Zcert};
use ab_num::{OutOfMemory, Party};
use std::alloc::{AllocError, Global};

/// The signature of replica `r`.
fn sig_of(signed: &[(u8, Sig)], r: u8) -> Option<&Sig>
    ensures { option_map (λ sig. sig.now) result ≡ sig_of signed.now r }
{
    for s in signed {
        if s.0 == r {
            return Some(&s.1);
        }
    }
    None
}

/// The signature of replica `r`, if it voted as `b`.
fn sig_for<'a>(votes: &Votes, signed: &'a [(u8, Sig)], b: &Ballot, r: u8) -> Option<&'a Sig>
    ensures { option_map (λ sig. sig.now) result ≡ (if voted votes.now.ballots b.now r then sig_of signed.now r else None) }
{
    if votes.has_voted_as(r, b) {
        sig_of(signed, r)
    } else {
        None
    }
}

/// Of the first replicas those that voted as `b`, ascending, each with its signature.
fn sigs_below<'a>(
    alloc: Global,
    votes: &Votes,
    signed: &'a [(u8, Sig)],
    b: &Ballot,
    replicas: u8,
) -> Result<Vec<(u8, &'a Sig)>, AllocError>
    ensures { IfOk result (λ v. map (λ s. (s.0, s.1.now)) v.items ≡ sigs_below votes.now.ballots signed.now b.now replicas) }
{
    let mut sigs = Vec::new(alloc);
    for r in 0..replicas {
        if let Some(sig) = sig_for(votes, signed, b, r) {
            sigs.push((r, sig))?;
        }
    }
    Ok(sigs)
}

/// These signatures, each with bytes of its own.
fn own_sigs(alloc: Global, sigs: &[(u8, &Sig)]) -> Result<Vec<(u8, Sig)>, OutOfMemory>
    ensures { IfOk result (λ v. v.items ≡ map (λ s. (s.0, s.1.now)) sigs.now) }
{
    let mut own = Vec::with_capacity(alloc, sigs.len())?;
    for s in sigs {
        let sig = s.1.copy(alloc)?;
        own.push((s.0, sig))?;
    }
    Ok(own)
}

/// The certificate of the lowest 2f + 1 of these, where there are so many.
fn zcert_of(
    alloc: Global,
    f: u8,
    m: &Request,
    b: &Ballot,
    sigs: &[(u8, &Sig)],
) -> Result<Option<Zcert>, OutOfMemory>
    requires { f ≤ 2 }
    ensures { IfOk result (λ o. o ≡ zcert_of_sigs f m.now b.now (map (λ s. (s.0, s.1.now)) sigs.now)) }
{
    let needed = usize::from(2 * f + 1);
    if sigs.len() < needed {
        return Ok(None);
    }
    let own = own_sigs(alloc, &sigs[..needed])?;
    Ok(Some(Zcert {
        client: m.client,
        stamp: m.stamp,
        n: b.n,
        d: b.d,
        reply: copy_reply(&b.reply),
        sigs: Signatures::of(own),
    }))
}

/// The certificate of 2f + 1 equal votes for the request `m`, where there are so many.
pub(crate) fn zcert_among(
    alloc: Global,
    f: u8,
    m: &Request,
    votes: &Votes,
    signed: &[(u8, Sig)],
) -> Result<Option<Zcert>, OutOfMemory>
    requires { f ≤ 2 }
    ensures { IfOk result (λ o. o ≡ zcert_among f m.now votes.now.ballots signed.now votes.now.ballots) }
{
    let ballots = votes.ballots();
    for b in ballots {
        let sigs = sigs_below(alloc, votes, signed, b, 3 * f + 1)?;
        let made = zcert_of(alloc, f, m, b, &sigs)?;
        if made.is_some() {
            return Ok(made);
        }
    }
    Ok(None)
}

/// The replica that says in instance `i` that it keeps the certificate of client `me`, or one with a higher number.
pub(crate) fn teller(f: u8, i: u32, me: u16, zcert: &Zcert, content: &ContentRef<'_>) -> Option<u8>
    requires { f ≤ 2 }
    ensures { result ≡ teller f i me zcert.now (shown content.now) }
{
    match content {
        ContentRef::LocalCommit {
            maker: Party::Replica(r),
            instance,
            client,
            stamp,
            n,
            d,
        } => {
            let open = *instance == i && *client == me && *stamp == zcert.stamp;
            let same = *n == zcert.n && **d == zcert.d && *r < 3 * f + 1;
            if open && same { Some(*r) } else { None }
        }
        _ => None,
    }
}
