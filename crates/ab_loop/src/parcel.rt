//! Messages as datagrams.

ghost use Rattle.std.specs.Prelude.{◌≡◌, ◌+◌, ◌<◌, ◌≤◌, All, IfOk, length, map, slice_index_or};
ghost use Rattle.ab_msg.specs.Fields.{IsParty};
ghost use Rattle.ab_msg.specs.Packets.{IsSendable};
ghost use Rattle.ab_loop.specs.Edges.{capped};
ghost use Rattle.ab_loop.specs.Settings.{highest_base};
ghost use Rattle.ab_loop.specs.Nodes.{port_of, parcel_of, parcels_of, datagrams_in};

use crate::node_setting::NodeSetting;
use ab_msg::Packet;
use ab_num::{OutOfMemory, Party};
use ab_piece::{Pieces, cut};
use std::alloc::Global;
use std::marker::Model;

/// The pieces of a message, and the port that they go to.
#[derive(Drop)]
pub(crate) struct Parcel {
    port: u16,
    pieces: Pieces,
}

/// It is seen as the list of its datagrams.
impl Model for Parcel {
    ghost use Rattle.std.specs.Prelude.{List, map};
    ghost use Rattle.ab_io.specs.Datagrams.{Datagram};

    ghost Value = { List Datagram };

    ghost view = { λ p. map (λ piece. (p.port, piece)) p.pieces };
}

/// The port of a party.
pub(crate) fn port_of(base: u16, party: Party) -> u16
    requires base { base ≤ highest_base }
    requires party { IsParty party }
    ensures { result ≡ port_of base party }
{
    match party {
        Party::Replica(r) => base + u16::from(r),
        Party::Client(c) => base + 100 + c,
    }
}

impl Parcel {
    /// The datagrams of a message.
    #[tactic(auto, unfolding(crate::specs::Nodes::parcel_of))]
    pub(crate) fn new(
        alloc: Global,
        setting: &NodeSetting,
        number: u64,
        m: &Packet,
    ) -> Result<Parcel, OutOfMemory>
        requires message { IsSendable m.now }
        ensures { IfOk result (λ p. p ≡ parcel_of setting.now number m.now) }
    {
        let port = port_of(setting.base(), m.to());
        let pieces = cut(alloc, setting.me(), number, m.bytes())?;
        Ok(Parcel { port, pieces })
    }

    /// How many datagrams there are.
    pub(crate) fn len(&self) -> usize
        ensures { result ≡ length self.now }
    {
        self.pieces.len()
    }

    /// The port and the bytes of the datagram of this index.
    pub(crate) fn get(&self, index: usize) -> (u16, &[u8])
        requires { index < length self.now }
        ensures { (result.0, result.1.now) ≡ slice_index_or self.now index (result.0, result.1.now) }
    {
        (self.port, self.pieces.get(index))
    }
}

/// The datagrams of each message, where the last message before them had this number.
pub(crate) fn parcels(
    alloc: Global,
    setting: &NodeSetting,
    number: u64,
    messages: &[Packet],
) -> Result<Vec<Parcel>, OutOfMemory>
    requires messages { All IsSendable messages.now }
    ensures { IfOk result (λ v. v.items ≡ parcels_of setting.now number messages.now) }
{
    let mut parcels = Vec::with_capacity(alloc, messages.len())?;
    let mut last = number;
    'messages: for message in messages {
        last = last.saturating_add(1);
        parcels.push(Parcel::new(alloc, setting, last, message)?)?;
    }
    Ok(parcels)
}

/// How many datagrams there are in all.
pub(crate) fn count(parcels: &[Parcel]) -> u64
    ensures { result ≡ capped (length (datagrams_in parcels.now)) }
{
    let mut sum = 0u64;
    'parcels: for parcel in parcels {
        sum = sum.saturating_add(parcel.len() as u64);
    }
    sum
}
