//! All packets of a run.

ghost use Rattle.std.specs.Prelude.{◌≡◌, ◌+◌, ◌≤◌, [], ◌++◌, length, IfSome, SomeIff, OnOk, OnErr, IfErr};
ghost use Rattle.std.specs.Option.{option_map};
ghost use Rattle.ab_world.specs.Packets.{total, most_bytes, nth};
ghost use Rattle.ab_world.specs.Faults.{SendCause};

use crate::send_fault::SendFault;
use ab_msg::Packet;
use std::alloc::Global;
use std::marker::Model;

/// How many bytes are kept at most.
const MOST_BYTES: u64 = 268_435_456;

/// In how many of the last packets equal bytes are looked for. A replica answers one client after the
/// other with its ABORT, and the others' answers come in between.
const LOOKED_IN: usize = 64;

/// From how many bytes on. Most packets are shorter, and looking would take longer than copying.
const LONG: usize = 1024;

/// What was sent, the oldest first.
#[derive(Drop)]
pub struct Packets {
    sent: Vec<Packet>,
    bytes: u64,
}

/// It is seen as the list of the packets.
impl Model for Packets {
    ghost use Rattle.std.specs.Prelude.{◌≡◌, ◌≤◌, List};
    ghost use Rattle.ab_msg.specs.Packets.{Packet as Sent};
    ghost use Rattle.ab_world.specs.Packets.{total, most_bytes};

    ghost Value = { List Sent };

    ghost view = { λ p. p.sent.items };

    ghost invariant = { λ p. (p.bytes ≡ total p.sent.items) × (p.bytes ≤ most_bytes) };
}

/// How many bytes there are with `more` of them, where they are kept.
pub(crate) fn with_more(bytes: u64, more: u64) -> Option<u64>
    requires { bytes ≤ most_bytes }
    ensures { SomeIff result (bytes + more ≤ most_bytes) (bytes + more) }
{
    if more <= MOST_BYTES - bytes {
        Some(bytes + more)
    } else {
        None
    }
}

/// How many bytes there are with those of the packets, where they are kept.
pub(crate) fn with_packets(bytes: u64, packets: &[Packet]) -> Option<u64>
    requires { bytes ≤ most_bytes }
    ensures { SomeIff result (bytes + total packets.now ≤ most_bytes) (bytes + total packets.now) }
{
    let mut sum = bytes;
    for packet in packets {
        sum = with_more(sum, packet.bytes().len() as u64)?;
    }
    Some(sum)
}

/// The packet with the bytes of an earlier one, which both then share, if they are the same.
fn sharing(earlier: &Packet, packet: &Packet) -> Option<Packet>
    ensures { IfSome result (λ same. same ≡ packet.now) }
{
    if earlier.bytes() == packet.bytes() {
        earlier.forward(packet.to()).ok()
    } else {
        None
    }
}

/// The packet with the bytes of one of the last that were sent, if it is long and one has the same.
fn shared(sent: &[Packet], packet: &Packet) -> Option<Packet>
    ensures { IfSome result (λ same. same ≡ packet.now) }
{
    if packet.bytes().len() < LONG {
        return None;
    }
    let first = sent.len().saturating_sub(LOOKED_IN);
    'looking: for n in (first..sent.len()).rev() {
        if let Some(same) = sharing(&sent[n], packet) {
            return Some(same);
        }
    }
    None
}

/// The packet shares its bytes so, if it can.
fn share(sent: &[Packet], packet: &mut Packet)
    ensures { packet.new ≡ packet.old }
{
    if let Some(same) = shared(sent, packet) {
        *packet = same;
    }
}

/// Each of the packets does so.
fn share_all(sent: &[Packet], packets: &mut Vec<Packet>)
    ensures { packets.new.items ≡ packets.old.items }
{
    'sharing: for n in 0..packets.len() {
        share(sent, &mut packets[n]);
    }
}

impl Packets {
    /// Nothing was sent.
    pub fn new(alloc: Global) -> Packets
        ensures { result ≡ [] }
    {
        Packets {
            sent: Vec::new(alloc),
            bytes: 0,
        }
    }

    /// How many were sent.
    pub fn len(&self) -> u64
        ensures { result ≡ length self.now }
    {
        self.sent.len() as u64
    }

    /// All of them, the oldest first.
    pub fn as_slice(&self) -> &[Packet]
        ensures { result.now ≡ self.now }
    {
        self.sent.as_slice()
    }

    /// The packet of this number, counted from 1.
    pub fn get(&self, number: u64) -> Option<&Packet>
        ensures { option_map (λ p. p.now) result ≡ nth self.now number }
    {
        let index = number.checked_sub(1)?;
        self.sent.get(index as usize)
    }

    /// Keeps packets behind those that were sent before.
    #[tactic(auto, using(crate::proofs::Totals::total_append))]
    pub fn send(&mut self, _alloc: Global, mut more: Vec<Packet>) -> Result<(), SendFault>
        ensures ok { OnOk result ((self.new ≡ self.old ++ more.items) × (total (self.old ++ more.items) ≤ most_bytes)) }
        ensures cause { IfErr result (λ fault. SendCause fault (total (self.old ++ more.items))) }
        ensures err { OnErr result (self.new ≡ self.old) }
    {
        let Some(bytes) = with_packets(self.bytes, more.as_slice()) else {
            return Err(SendFault::Limit);
        };
        share_all(self.sent.as_slice(), &mut more);
        self.sent.append(&mut more)?;
        self.bytes = bytes;
        Ok(())
    }
}
