//! The keys of one party of a cluster, their text, and the text that sets up a node.
#![tactic(auto)]

mod derive;
mod fault;
mod key_lines;
mod keys;
mod laws;
mod lines;
mod node;
mod node_writing;
mod parts;
mod peers;
mod reading;
mod secret;
mod shared;
mod version;
mod writing;

pub use fault::{KeyFault, NodeFault};
pub use keys::PartyKeys;
pub use laws::{
    derived_keys_are_in_form, fault_is_first, keys_are_whole, read_is_spelled, spelled_is_read,
    spelled_nodes_are_read, written_is_read, written_nodes_are_read,
};
pub use lines::number_at;
pub use node::{Commands, read_commands, read_node};
pub use node_writing::node_text;
pub use parts::party_in;
pub use peers::replicas;
pub use reading::{Read, publics_of};
pub use secret::Secret;
