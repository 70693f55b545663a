//! Tags that a party makes.

ghost use Rattle.std.specs.Prelude.{◌≡◌, ◌≤◌, unwrap_or};
ghost use Rattle.ab_seal.specs.Sealing.{tag_made, tags_made};

use crate::receivers::is_receiver;
use ab_keys::KeyRing;
use ab_msg::{NO_TAG, Tag, Tags};
use ab_num::Party;

/// The tag of a text for a party.
pub(crate) fn tag_made(k: &KeyRing, to: Party, text: &[u8]) -> Tag
    ensures { result ≡ tag_made k.now to text.now }
{
    k.tag_for(to, text).unwrap_or(NO_TAG)
}

/// The tags of a text in an instance: one for each receiver.
pub(crate) fn tags_made(k: &KeyRing, instance: u32, text: &[u8]) -> Tags
    requires { 1 ≤ instance }
    ensures { result.items ≡ tags_made k.now instance text.now }
{
    let c = k.cluster();
    let mut tags = Tags::new();
    'receivers: for r in 0..c.replicas() {
        if is_receiver(c, instance, r) {
            tags.push((r, tag_made(k, Party::Replica(r), text)));
        }
    }
    tags
}
