//! What comes to a replica of PBFT.

ghost use Rattle.std.specs.Prelude.{◌≡◌, ◌==◌, ◌&&◌, nat_eq, IfOk, map};
ghost use Rattle.std.specs.List.{list_all, list_any};
ghost use Rattle.ab_pbft_rules.specs.Rules.{all_apart as are_apart, cert_of, change_of, fits, may_enter as may_enter_by, slot_fits};

use crate::change::{Cert, Change};
use crate::digest::slot_digest;
use ab_hist::{History, Request};
use ab_msg::Value;
use ab_num::OutOfMemory;
use std::alloc::Global;
use std::marker::Model;

/// A slot of a VIEW-CHANGE: the view and the digest that are signed, the value, and the replicas whose PREPAREs stand
/// beside it.
pub struct ProvedSlot {
    at: u32,
    x: [u8; 32],
    value: Value,
    by: Vec<u8>,
}

impl Drop for ProvedSlot {
    fn drop(self) {
        let ProvedSlot {
            at: _,
            x: _,
            value: _,
            by: _,
        } = self;
    }
}

impl Model for ProvedSlot {
    ghost use Rattle.ab_order.specs.Inputs.{ProvedSlot as Slot};

    ghost Value = { Slot };

    ghost view = { λ s. record { at = s.at; x = s.x; value = s.value; by = s.by.items } };
}

/// A VIEW-CHANGE of a replica for a view.
pub struct ChangeReading {
    by: u8,
    view: u32,
    slots: Vec<ProvedSlot>,
}

impl Drop for ChangeReading {
    fn drop(self) {
        let ChangeReading {
            by: _,
            view: _,
            slots: _,
        } = self;
    }
}

impl Model for ChangeReading {
    ghost use Rattle.ab_order.specs.Inputs.{ChangeReading as ChangeOf};

    ghost Value = { ChangeOf };

    ghost view = { λ c. record { by = c.by; view = c.view; slots = c.slots.items } };
}

/// What comes: a message that is read, or the end of the timer.
#[derive(Drop)]
pub enum Reading {
    Request(Request),
    /// The base for slot 0, which a valid certificate gives.
    PrePrepareBase {
        by: u8,
        view: u32,
        x: [u8; 32],
        base: History,
    },
    PrePrepare {
        by: u8,
        view: u32,
        slot: u8,
        x: [u8; 32],
        request: Request,
    },
    Prepare {
        by: u8,
        view: u32,
        slot: u8,
        x: [u8; 32],
    },
    Commit {
        by: u8,
        view: u32,
        slot: u8,
        x: [u8; 32],
    },
    ViewChange(ChangeReading),
    NewView {
        by: u8,
        view: u32,
        changes: Vec<ChangeReading>,
    },
    Timeout,
    /// What no rule takes.
    Other,
}

/// Whether a number is among others.
fn is_among(r: u8, others: &[u8]) -> bool
    ensures { result ≡ list_any (nat_eq r) others.now }
{
    others.iter().any(|q| r == *q)
}

/// Whether no number stands twice.
#[tactic(auto, using(crate::proofs::ApartLemmas::apart_ends, crate::proofs::ApartLemmas::apart_more))]
fn all_apart(numbers: &[u8]) -> bool
    ensures { result ≡ are_apart numbers.now }
{
    'numbers: for i in 0..numbers.len() {
        if is_among(numbers[i], &numbers[i + 1..]) {
            return false;
        }
    }
    true
}

impl ProvedSlot {
    /// A slot with a digest and a value in a view, and the replicas of the PREPAREs beside it.
    pub fn new(at: u32, x: [u8; 32], value: Value, by: Vec<u8>) -> ProvedSlot
        ensures { result ≡ record { at = at; x = x; value = value; by = by.items } }
    {
        ProvedSlot { at, x, value, by }
    }

    /// Whether 2f + 1 PREPAREs of distinct replicas, of a view below this one, stand beside it, and it has the digest of
    /// its value.
    fn fits(&self, f: u8, view: u32) -> bool
        ensures { result ≡ slot_fits f view self.now }
    {
        self.at < view
            && self.by.len() == 2 * usize::from(f) + 1
            && all_apart(&self.by)
            && self.x == slot_digest(&self.value)
    }

    /// The slot's certificate without the PREPAREs.
    fn into_cert(self) -> Cert
        ensures { result ≡ cert_of self }
    {
        let ProvedSlot {
            at,
            x: _,
            value,
            by: _,
        } = self;
        Cert::new(at, value)
    }
}

impl ChangeReading {
    /// A VIEW-CHANGE of a replica for a view, with its slots.
    pub fn new(by: u8, view: u32, slots: Vec<ProvedSlot>) -> ChangeReading
        ensures { result ≡ record { by = by; view = view; slots = slots.items } }
    {
        ChangeReading { by, view, slots }
    }

    /// The replica.
    pub fn by(&self) -> u8
        ensures { result ≡ self.now.by }
    {
        self.by
    }

    pub fn view(&self) -> u32
        ensures { result ≡ self.now.view }
    {
        self.view
    }

    /// Whether each slot fits.
    pub fn fits(&self, f: u8) -> bool
        ensures { result ≡ fits f self.now }
    {
        let view = self.view;
        self.slots.iter().all(|s| s.fits(f, view))
    }

    /// The VIEW-CHANGE without the PREPAREs.
    pub fn into_change(self, alloc: Global) -> Result<Change, OutOfMemory>
        ensures { IfOk result (λ c. c ≡ change_of self) }
    {
        let ChangeReading { by, view: _, slots } = self;
        let certs = slots.into_iter().map(|s| s.into_cert()).collect(alloc)?;
        Ok(Change::new(by, certs))
    }
}

/// Whether a replica made one of these.
fn has_maker(by: u8, changes: &[ChangeReading]) -> bool
    ensures { result ≡ list_any (λ c. nat_eq by c.by) changes.now }
{
    changes.iter().any(|c| by == c.by())
}

/// Whether no replica made two of these.
fn makers_apart(changes: &[ChangeReading]) -> bool
    ensures { result ≡ are_apart (map (λ c. c.by) changes.now) }
{
    'changes: for i in 0..changes.len() {
        let change = &changes[i];
        let (_, others) = changes.split_at(i + 1);
        if has_maker(change.by(), others) {
            return false;
        }
    }
    true
}

/// Whether each is for a view, and fits.
fn all_fit(f: u8, view: u32, changes: &[ChangeReading]) -> bool
    ensures { result ≡ list_all (λ c. nat_eq c.view view && fits f c) changes.now }
{
    changes.iter().all(|c| c.view() == view && c.fits(f))
}

/// Whether these are 2f + 1 VIEW-CHANGEs for a view by distinct replicas, each of which fits.
pub fn may_enter(f: u8, view: u32, changes: &[ChangeReading]) -> bool
    ensures { result ≡ may_enter_by f view changes.now }
{
    if changes.len() != 2 * usize::from(f) + 1 {
        return false;
    }
    makers_apart(changes) && all_fit(f, view, changes)
}

/// Each VIEW-CHANGE without its PREPAREs.
pub fn into_changes(alloc: Global, changes: Vec<ChangeReading>) -> Result<Vec<Change>, OutOfMemory>
    ensures { IfOk result (λ v. v.items ≡ map change_of changes.items) }
{
    let mut all = Vec::with_capacity(alloc, changes.len())?;
    'changes: for change in changes {
        let change = change.into_change(alloc)?;
        all.push(change)?;
    }
    Ok(all)
}
