//! The certificates that kept ABORTs make.

ghost use Rattle.std.specs.Prelude.{◌≡◌, ◌≤◌, ◌+◌, ◌*◌, All, [], map, IfOk, IfSome, OnOk};
ghost use Rattle.std.specs.List.{filter};
ghost use Rattle.ab_msg.specs.Certs.{AreAborts, IsSigned};
ghost use Rattle.ab_msg.specs.Contents.{IsStopContent};
ghost use Rattle.ab_run.specs.Clients.{keep, own_cert, same_list};
ghost use Rattle.ab_client.specs.Choices.{first_choice, with_list};

use crate::certs::place_for;
use crate::lists::{CertList, list_in};
use ab_abs::needs_equal;
use ab_extract::is_same;
use ab_msg::{AbortCert, Content, Copied, Signed};
use ab_num::{Cluster, OutOfMemory};
use ab_stable::makes_checkpoints;
use std::alloc::Global;

/// The kept ABORTs and one more.
fn with_kept<'a>(
    alloc: Global,
    v: &'a Signed,
    kept: &'a [Signed],
) -> Result<Vec<&'a Signed>, OutOfMemory>
    ensures { IfOk result (λ all. map (λ s. s.now) all.items ≡ keep v.now kept.now) }
{
    let mut all = Vec::with_capacity(alloc, 8)?;
    for w in kept {
        all.push(w)?;
    }
    all.insert(place_for(kept, v.maker), v)?;
    Ok(all)
}

/// Whether the two ABORTs have one list.
fn is_alike(a: &Content, b: &Content) -> bool
    ensures { result ≡ same_list a.now b.now }
{
    match a {
        Content::Abort { history: h, .. } => match b {
            Content::Abort { history: g, .. } => is_same(g, h),
            _ => false,
        },
        _ => false,
    }
}

/// Those that have the list of `v`.
fn alike<'a>(alloc: Global, v: &Signed, all: &[&'a Signed]) -> Result<Vec<&'a Signed>, OutOfMemory>
    ensures { IfOk result (λ some. map (λ s. s.now) some.items ≡ filter (λ w. same_list v.now.content w.content) (map (λ s. s.now) all.now)) }
{
    let mut some = Vec::new(alloc);
    for w in all {
        if is_alike(&v.content, &w.content) {
            some.push(*w)?;
        }
    }
    Ok(some)
}

/// Copies of these, as a certificate.
fn cert_of(alloc: Global, aborts: &[&Signed]) -> Result<AbortCert, OutOfMemory>
    ensures { IfOk result (λ cert. cert ≡ map (λ s. s.now) aborts.now) }
{
    let mut own = Vec::with_capacity(alloc, aborts.len())?;
    for s in aborts {
        let s = s.copy(alloc)?;
        own.push(s)?;
    }
    Ok(AbortCert::of(own))
}

/// The certificate of these ABORTs of instance `j`, with the list that it brings. None exactly if it brings none.
fn certified(
    alloc: Global,
    c: &Cluster,
    j: u32,
    aborts: &[&Signed],
) -> Result<Option<(AbortCert, CertList)>, OutOfMemory>
    requires instance { 1 ≤ j }
    requires formed { All (IsSigned IsStopContent) (map (λ s. s.now) aborts.now) }
    ensures list { IfOk result (λ o. o ≡ with_list c.now j (map (λ s. s.now) aborts.now)) }
    ensures aborts { IfOk result (λ o. IfSome o (λ x. AreAborts 1 7 x.0)) }
{
    let cert = cert_of(alloc, aborts)?;
    match list_in(alloc, c, j, &cert)? {
        Some(list) => Ok(Some((cert, list))),
        None => Ok(None),
    }
}

/// The first set of `n` of these ABORTs, behind those that are chosen, that brings a list.
fn first_choice<'a>(
    alloc: Global,
    c: &Cluster,
    j: u32,
    n: usize,
    chosen: &mut Vec<&'a Signed>,
    rest: &[&'a Signed],
) -> Result<Option<(AbortCert, CertList)>, OutOfMemory>
    requires instance { 1 ≤ j }
    requires chosen { All (IsSigned IsStopContent) (map (λ s. s.now) chosen.old.items) }
    requires formed { All (IsSigned IsStopContent) (map (λ s. s.now) rest.now) }
    ensures list { IfOk result (λ o. o ≡ first_choice c.now j (map (λ s. s.now) chosen.old.items) n (map (λ s. s.now) rest.now)) }
    ensures aborts { IfOk result (λ o. IfSome o (λ x. AreAborts 1 7 x.0)) }
    ensures same { OnOk result (chosen.new.items ≡ chosen.old.items) }
{
    if n == 0 {
        return certified(alloc, c, j, chosen);
    }
    if rest.is_empty() {
        return Ok(None);
    }
    chosen.push(rest[0])?;
    let found = first_choice(alloc, c, j, n - 1, chosen, &rest[1..])?;
    chosen.pop();
    if found.is_some() {
        return Ok(found);
    }
    first_choice(alloc, c, j, n, chosen, &rest[1..])
}

/// The certificate that the kept ABORTs of instance `j` make with `v`, with the list that it brings. None exactly if they make none.
pub(crate) fn own_cert(
    alloc: Global,
    c: &Cluster,
    j: u32,
    v: &Signed,
    kept: &[Signed],
) -> Result<Option<(AbortCert, CertList)>, OutOfMemory>
    requires instance { 1 ≤ j }
    requires abort { IsSigned IsStopContent v.now }
    requires formed { All (IsSigned IsStopContent) kept.now }
    ensures list { IfOk result (λ o. o ≡ with_list c.now j (own_cert c.now j v.now kept.now)) }
    ensures aborts { IfOk result (λ o. IfSome o (λ x. AreAborts 1 7 x.0)) }
{
    let kind = c.kind(j);
    let all = with_kept(alloc, v, kept)?;
    if needs_equal(kind) {
        let some = alike(alloc, v, &all)?;
        return certified(alloc, c, j, &some);
    }
    if !makes_checkpoints(kind) {
        return certified(alloc, c, j, &all);
    }
    let mut chosen = Vec::new(alloc);
    first_choice(alloc, c, j, usize::from(2 * c.f + 1), &mut chosen, &all)
}
