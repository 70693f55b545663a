//! The digest of what a slot orders.

ghost use Rattle.std.specs.Prelude.{◌≡◌};
ghost use Rattle.ab_msg.specs.Slots.{base_digest, slot_digest as digest_of_slot};

use ab_hist::{History, base_digest};
use ab_msg::Value;

/// The digest of a base: of its length and its digest as a history.
#[tactic(auto, unfolding(ab_msg::specs::Slots::base_digest))]
fn digest_of(base: &History) -> [u8; 32]
    ensures { result ≡ base_digest base.now }
{
    base_digest(base.len() as u16, &base.digest_at(base.len()))
}

/// The digest of a value of a slot.
pub fn slot_digest(value: &Value) -> [u8; 32]
    ensures { result ≡ digest_of_slot value.now }
{
    match value {
        Value::Base(base) => digest_of(base),
        Value::Request(m) => m.digest(),
    }
}
