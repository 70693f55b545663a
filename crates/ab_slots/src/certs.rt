//! The certificates that a replica has, by their slots.

ghost use Rattle.std.specs.Prelude.{◌≡◌, ◌≤◌, IfOk, OnOk, length, map, slice_get};
ghost use Rattle.ab_msg.specs.declared.value.Value.{Value as SlotValue};
ghost use Rattle.std.specs.Option.{option_map};
ghost use Rattle.ab_msg.specs.Slots.{slot_digest as digest_of_slot};
ghost use Rattle.ab_lock.specs.Steps.{Cert as CertOf, cert_at as cert_of_slot, set_cert};
ghost use Rattle.ab_lock.specs.ViewChanges.{certs_from};

use crate::change::Cert;
use crate::digest::slot_digest;
use ab_msg::{Copied, ViewEntries};
use ab_num::OutOfMemory;
use std::alloc::Global;

/// What stands for slot `t`.
fn slot(certs: &[Option<Cert>], t: usize) -> Option<&Option<Cert>>
    ensures { option_map (λ c. c.now) result ≡ slice_get certs.now t }
{
    certs.get(t)
}

/// The certificate of slot `t`.
fn cert_at(certs: &[Option<Cert>], t: usize) -> Option<&Cert>
    ensures { option_map (λ c. c.now) result ≡ cert_of_slot certs.now t }
{
    match slot(certs, t) {
        Some(cert) => cert.as_ref(),
        None => None,
    }
}

/// Makes room for slot `t`, or for one behind the last.
#[tactic(auto, using(crate::proofs::CertLemmas::cert_gap))]
fn pad(certs: &mut Vec<Option<Cert>>, t: usize) -> Result<(), OutOfMemory>
    ensures same { OnOk result ((c : CertOf SlotValue) → set_cert t c certs.new.items ≡ set_cert t c certs.old.items) }
    ensures long { OnOk result (t ≤ length certs.new.items) }
{
    'gap: while certs.len() < t {
        certs.push(None)?;
    }
    Ok(())
}

/// Keeps a certificate for slot `t`.
#[tactic(auto, using(crate::proofs::CertLemmas::cert_end, crate::proofs::CertLemmas::cert_in))]
pub fn set_cert(certs: &mut Vec<Option<Cert>>, t: usize, cert: Cert) -> Result<(), OutOfMemory>
    ensures { OnOk result (certs.new.items ≡ set_cert t cert certs.old.items) }
{
    pad(certs, t)?;
    if certs.len() == t {
        certs.push(Some(cert))?;
    } else {
        certs[t] = Some(cert);
    }
    Ok(())
}

/// The certificates from slot 0 on, at most so many.
pub fn front(alloc: Global, certs: &[Option<Cert>], most: usize) -> Result<Vec<Cert>, OutOfMemory>
    ensures { IfOk result (λ v. v.items ≡ certs_from (cert_of_slot certs.now) most 0) }
{
    let mut front = Vec::new(alloc);
    'slots: for t in 0..most {
        match cert_at(certs, t) {
            Some(cert) => {
                let copy = cert.copy(alloc)?;
                front.push(copy)?;
            }
            None => return Ok(front),
        }
    }
    Ok(front)
}

/// What a VIEW-CHANGE signs of certificates.
pub fn entries_of(alloc: Global, certs: &[Cert]) -> Result<ViewEntries, OutOfMemory>
    ensures { IfOk result (λ e. e ≡ map (λ c. (c.at, digest_of_slot c.value)) certs.now) }
{
    let mut entries = Vec::with_capacity(alloc, certs.len())?;
    'certs: for cert in certs {
        entries.push((cert.at(), slot_digest(cert.value())))?;
    }
    Ok(ViewEntries::of(entries))
}

/// The same certificate, if there is one.
fn copy_cert(alloc: Global, cert: &Option<Cert>) -> Result<Option<Cert>, OutOfMemory>
    ensures { IfOk result (λ c. c ≡ cert.now) }
{
    // A copy may fail, which `map` has no way to tell.
    match cert {
        Some(cert) => {
            let copy = cert.copy(alloc)?;
            Ok(Some(copy))
        }
        None => Ok(None),
    }
}

/// The same certificates.
pub fn copy_certs(alloc: Global, certs: &[Option<Cert>]) -> Result<Vec<Option<Cert>>, OutOfMemory>
    ensures { IfOk result (λ v. v.items ≡ certs.now) }
{
    let mut copies = Vec::with_capacity(alloc, certs.len())?;
    'certs: for cert in certs {
        let copy = copy_cert(alloc, cert)?;
        copies.push(copy)?;
    }
    Ok(copies)
}
