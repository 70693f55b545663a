//! What breaks a premise.

use ab_num::Party;

/// The first event in which a correct party took a claim of a correct party that it did not make,
/// and in whose name.
#[derive(Clone, Copy, Debug, PartialEq, Eq)]
pub struct Forgery {
    pub event: u32,
    pub maker: Party,
}

/// The first event after which digests collide of the histories, lists and requests that correct
/// parties had or checked, and the party that took it.
#[derive(Clone, Copy, Debug, PartialEq, Eq)]
pub struct Collision {
    pub event: u32,
    pub party: Party,
}
