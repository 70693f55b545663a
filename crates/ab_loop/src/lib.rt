//! A node: one party's core over a link, a clock and a sink, by turns.
#![tactic(auto)]

mod fault;
mod keeping;
mod laws;
mod node;
mod node_setting;
mod outside;
mod parcel;
mod party_core;
mod past;
mod serving;
mod texts;

pub use fault::ServeFault;
pub use laws::{nodes_follow_their_core, restarted_nodes_are_one};
pub use node_setting::NodeSetting;
pub use party_core::{Commit, NodeEventRef, PartyCore, Reaction};
pub use past::{Past, bodies_spell_events};
pub use serving::{Commands, Job, Served, serve};
