//! What holds of all that a replica sends.

ghost use Rattle.std.specs.Prelude.{ℕ, Contains};
ghost use Rattle.ab_num.specs.declared.cluster.Cluster.{Cluster};
ghost use Rattle.ab_msg.specs.declared.message.Out.{Out as Sent};
ghost use Rattle.ab_msg.specs.Pens.{Pen};
ghost use Rattle.ab_abs.specs.Messages.{Call, IsFormed};
ghost use Rattle.ab_abs.specs.FormLaws.{SignsInForm};
ghost use Rattle.ab_order.specs.Bytes.{ArisesAs, KeepsBytes};
ghost use Rattle.ab_pbft_rules.specs.Rules.{pbft};
ghost use Rattle.ab_pbft_shelf.specs.Signing.{Signing, signing};
ghost use Rattle.ab_pbft_drafts.specs.Bounds.{HasQuorum, IsInForm};

/// The list that a replica executes has bytes, and what it sends is of the grammar but for the tags
/// that sealing makes, if all that it was handed is of the grammar.
pub fn replicas_keep_bytes()
    ensures { KeepsBytes signing pbft }
{}

/// So what it keeps stays within the bounds of the grammar: views, slots, values, certificates and
/// view changes. The signatures that it keeps are those of the votes and certificates that the
/// rules keep.
pub fn replicas_stay_in_form()
    ensures { (c : Cluster) (i r : ℕ) (q : Signing) → ArisesAs signing c i r q → IsInForm c i r q }
{}

/// A NEW-VIEW that a replica sends has 2f + 1 view changes.
pub fn new_views_have_quorums()
    ensures { (c : Cluster) (i r : ℕ) (pen : Pen) (q : Signing) (call : Call) → SignsInForm pen → ArisesAs signing c i r q → IsFormed call
        → (o : Sent) → Contains (signing.sends pen q call) o → HasQuorum c.f o.msg }
{}
