//! Certificates, and the VIEW-CHANGEs that hold them.

ghost use Rattle.std.specs.Prelude.{◌≡◌};

use ab_msg::{Copied, Value, copy_each};
use ab_num::OutOfMemory;
use std::alloc::Global;
use std::marker::Model;

/// A value of a slot that 2f + 1 PREPAREs of a view back.
pub struct Cert {
    at: u32,
    value: Value,
}

// Written out, so that no crate above makes and proves it anew.
impl Drop for Cert {
    fn drop(self) {
        let Cert { at: _, value: _ } = self;
    }
}

impl Model for Cert {
    ghost use Rattle.ab_msg.specs.declared.value.Value.{Value as SlotValue};
    ghost use Rattle.ab_lock.specs.Steps.{Cert as CertOf};

    ghost Value = { CertOf SlotValue };

    ghost view = { λ c. record { at = c.at; value = c.value } };
}

/// A VIEW-CHANGE of a replica, with the certificates of the slots from 0 on.
pub struct Change {
    by: u8,
    certs: Vec<Cert>,
}

impl Drop for Change {
    fn drop(self) {
        let Change { by: _, certs: _ } = self;
    }
}

impl Model for Change {
    ghost use Rattle.ab_msg.specs.declared.value.Value.{Value as SlotValue};
    ghost use Rattle.ab_lock.specs.Steps.{Change as ChangeOf};

    ghost Value = { ChangeOf SlotValue };

    ghost view = { λ c. record { by = c.by; certs = c.certs.items } };
}

impl Cert {
    /// The certificate of a value in a view.
    pub fn new(at: u32, value: Value) -> Cert
        ensures { result ≡ record { at = at; value = value } }
    {
        Cert { at, value }
    }

    /// The view.
    pub fn at(&self) -> u32
        ensures { result ≡ self.now.at }
    {
        self.at
    }

    pub fn value(&self) -> &Value
        ensures { result.now ≡ self.now.value }
    {
        &self.value
    }
}

impl Change {
    /// The VIEW-CHANGE of a replica with these certificates.
    pub fn new(by: u8, certs: Vec<Cert>) -> Change
        ensures { result ≡ record { by = by; certs = certs.items } }
    {
        Change { by, certs }
    }

    /// The replica.
    pub fn by(&self) -> u8
        ensures { result ≡ self.now.by }
    {
        self.by
    }

    pub fn certs(&self) -> &[Cert]
        ensures { result.now ≡ self.now.certs }
    {
        self.certs.as_slice()
    }
}

impl Copied for Cert {
    fn copy(&self, alloc: Global) -> Result<Cert, OutOfMemory> {
        let value = self.value.copy(alloc)?;
        Ok(Cert { at: self.at, value })
    }
}

impl Copied for Change {
    fn copy(&self, alloc: Global) -> Result<Change, OutOfMemory> {
        let certs = copy_each(alloc, self.certs.as_slice())?;
        Ok(Change { by: self.by, certs })
    }
}
