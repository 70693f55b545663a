//! A node: one party of a cluster, by the text that sets it up, served over a link.
#![tactic(auto)]

mod client_member;
mod commits;
mod journaled;
mod keys;
mod laws;
mod node;
mod nothing;
mod replica_member;
mod stop;

pub use client_member::ClientMember;
pub use journaled::serve_journaled;
pub use laws::{
    clients_are_local, first_members_start_a_run, members_are_ordered, members_make_a_run,
    numbers_sign_once, replicas_are_local, stopped_clients_are_seen, stopped_members_are_one,
};
pub use node::serve_text;
pub use replica_member::ReplicaMember;
pub use stop::Stop;
