//! PBFT as an orderer, over all views: its rules at one replica as plain functions, and what the acts
//! of correct replicas keep by them.
#![tactic(auto)]

mod examples;
mod laws;

pub use examples::{a_primary_executes, a_replica_alone_changes_views};
pub use laws::{pbft_is_lawful, pbft_is_one_order, pbft_locks, pbft_settles};
