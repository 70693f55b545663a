//! Key rings: the keys of one party of a cluster, by which it makes tags for the others and checks
//! theirs.
#![tactic(auto)]

mod keys;
mod laws;
mod peer;
mod ring;
mod secrets;
mod tags;

pub use keys::{exchanges, is_party, key_of, party_bytes};
pub use laws::{derived_keys, derived_tags, keys_have_their_own_texts, rings_agree};
pub use ring::KeyRing;
pub use secrets::{tree_name, tree_seed};
