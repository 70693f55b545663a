//! A client of a cluster: it sends its requests to replicas and commits what enough of them answer.
#![tactic(auto)]

mod certs;
mod choices;
mod client;
mod laws;
mod lists;
mod sending;
mod zcerts;

pub use client::{Client, InvokeFault};
pub use laws::{clients_act_by_their_cluster, timers_count};
