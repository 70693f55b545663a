//! The real outside of a node: datagrams over the loopback address, and the system's clock. They don't
//! tell what comes and goes.
#![tactic(auto)]

mod clock;
mod udp;

pub use clock::StdClock;
pub use udp::UdpLink;
