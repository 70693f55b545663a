//! What an event gives to a core.

/// What an event gives to a core, lent by the event: a packet is named by its number.
#[derive(Clone, Copy, Debug)]
pub(crate) enum Given<'e> {
    /// A command of 1 to 128 bytes.
    Command(&'e [u8]),
    Packet(u64),
    Bytes(&'e [u8]),
    Timeout,
}
