//! What holds of all that a replica sends.

ghost use Rattle.ab_order.specs.Owned.{KeepsOwn};
ghost use Rattle.ab_order.specs.Protos.{Obeys};
ghost use Rattle.ab_pbft_rules.specs.Rules.{pbft};
ghost use Rattle.ab_pbft_shelf.specs.Signing.{signing};

/// A replica does what PBFT's rules say: it states in messages what they make, and nothing else, and
/// signs each content that wants a signature once, with the next one.
pub fn replicas_obey()
    ensures { Obeys signing pbft }
{}

/// It sends its own statements of an order alone, one in each message, and a call that tells it nothing
/// changes nothing.
pub fn replicas_send_their_own()
    ensures { KeepsOwn signing pbft }
{}
