//! Packets as a picture is told of them.

ghost use Rattle.std.specs.Prelude.{◌≡◌, IfOk, map};
ghost use Rattle.ab_draw.specs.Draws.{parcel_of};

use ab_msg::Packet;
use ab_num::OutOfMemory;
use ab_picture::SentPacket;
use std::alloc::Global;

/// To whom a packet goes, and the code of its message.
fn parcel_of(packet: &Packet) -> SentPacket
    ensures { result ≡ parcel_of packet.now }
{
    SentPacket {
        to: packet.to(),
        code: packet.bytes().first().copied().unwrap_or(0),
    }
}

/// The packets as they are told.
pub(crate) fn parcels_of(alloc: Global, packets: &[Packet]) -> Result<Vec<SentPacket>, OutOfMemory>
    ensures { IfOk result (λ v. v.items ≡ map parcel_of packets.now) }
{
    let mut parcels = Vec::new(alloc);
    for packet in packets {
        parcels.push(parcel_of(packet))?;
    }
    Ok(parcels)
}
