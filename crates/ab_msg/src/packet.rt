//! Packets.

ghost use Rattle.std.specs.Prelude.{◌≡◌, IfOk};

use ab_num::{OutOfMemory, Party};
use std::alloc::Global;
use std::marker::Model;
use std::rc::RcSlice;

/// To whom bytes were sent, and the bytes. What goes to several parties can share them.
pub struct Packet {
    to: Party,
    bytes: RcSlice<u8>,
}

impl Drop for Packet {
    fn drop(self) {
        let Packet { to: _, bytes: _ } = self;
    }
}

/// Its bytes are seen as a list.
impl Model for Packet {
    ghost use Rattle.ab_msg.specs.Packets.{Packet as Sent};

    ghost Value = { Sent };

    ghost view = { λ p. record { to = p.to; bytes = p.bytes.items.value.items } };
}

impl Packet {
    /// These bytes to this party.
    pub fn new(alloc: Global, to: Party, bytes: &[u8]) -> Result<Packet, OutOfMemory>
        ensures { IfOk result (λ packet. packet ≡ record { to = to; bytes = bytes.now }) }
    {
        let bytes = RcSlice::from_slice(alloc, bytes)?;
        Ok(Packet { to, bytes })
    }

    /// The same bytes, which both packets share, to this party.
    pub fn forward(&self, to: Party) -> Result<Packet, OutOfMemory>
        ensures { IfOk result (λ packet. packet ≡ record { to = to; bytes = self.now.bytes }) }
    {
        let bytes = self.bytes.clone()?;
        Ok(Packet { to, bytes })
    }

    /// To whom it was sent.
    pub fn to(&self) -> Party
        ensures { result ≡ self.now.to }
    {
        self.to
    }

    /// What was sent.
    pub fn bytes(&self) -> &[u8]
        ensures { result.now ≡ self.now.bytes }
    {
        self.bytes.as_slice()
    }
}
