//! What the text of an audit gives.

ghost use Rattle.std.specs.Prelude.{◌≡◌, ◌+◌, ◌*◌, length};
ghost use Rattle.ab_audit_text.specs.Texts.{audit_of};

use ab_num::{Cluster, Scheme};
use ab_scheme::PublicKey;
use ab_text::Items;
use std::marker::Model;

/// The public keys of the replicas of a cluster, how they sign, and messages.
#[derive(Drop)]
pub struct AuditText {
    pub(crate) cluster: Cluster,
    pub(crate) lms: Scheme,
    pub(crate) publics: Vec<PublicKey>,
    pub(crate) messages: Items<Items<u8>>,
}

impl Model for AuditText {
    ghost use Rattle.ab_audit_text.specs.Texts.{AuditText as TextValue};

    ghost Value = { TextValue };

    ghost view = { λ t. record {
      f = t.cluster.f;
      lms = t.lms;
      publics = t.publics.items;
      messages = t.messages;
    } };
}

impl AuditText {
    /// The cluster. Only its number of replicas is of the text.
    pub fn cluster(&self) -> &Cluster
        ensures { result.now.f ≡ self.now.f }
    {
        &self.cluster
    }

    /// The public keys of the replicas, from replica 0 on.
    pub fn publics(&self) -> &[PublicKey]
        ensures { result.now ≡ self.now.publics }
    {
        self.publics.as_slice()
    }

    /// The messages in their order.
    pub fn messages(&self) -> &[Items<u8>]
        ensures { result.now ≡ self.now.messages }
    {
        self.messages.as_slice()
    }
}
