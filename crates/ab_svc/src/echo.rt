//! A service that keeps nothing.

ghost use Rattle.std.specs.Prelude.{◌≡◌, ◌≤◌, length, take};
ghost use Rattle.ab_svc.specs.Echoes.{echo_of};

use crate::service::Service;
use ab_hist::{Reply, Request};
use ab_num::OutOfMemory;
use arrayvec::ArrayVec;
use std::alloc::Global;

/// It answers a request with the first 72 bytes of its command.
#[derive(Clone, Copy, Debug, PartialEq, Eq)]
pub struct Echo;

/// The first `n` bytes, or all.
fn front(bytes: &[u8], n: usize) -> &[u8]
    ensures front { result.now ≡ take n bytes.now }
    ensures short { length result.now ≤ n }
{
    if n < bytes.len() { &bytes[..n] } else { bytes }
}

/// The first 72 bytes of the command.
#[tactic(auto, unfolding(crate::specs::Echoes::echo_of))]
fn first_bytes(m: &Request) -> Reply
    ensures { result ≡ echo_of m.now }
{
    let mut reply = ArrayVec::new();
    match reply.try_extend_from_slice(front(m.command.as_slice(), 72)) {
        Ok(()) => {}
        Err(_) => unreachable!(),
    }
    reply
}

impl Service for Echo {
    ghost use Rattle.ab_svc.specs.Echoes.{echo_machine};

    ghost machine = { echo_machine };

    fn start(_alloc: Global) -> Result<Self, OutOfMemory> {
        Ok(Echo)
    }

    fn apply(&mut self, _alloc: Global, m: &Request) -> Result<Reply, OutOfMemory> {
        Ok(first_bytes(m))
    }

    fn copy(&self, _alloc: Global) -> Result<Self, OutOfMemory> {
        Ok(Echo)
    }

    ghost use Rattle.ab_svc.specs.Laws.{short_law};

    ghost short = { λ h m. short_law m };
}
