//! What a replica of PBFT keeps and sends has bytes.
#![tactic(auto)]

mod laws;

pub use laws::{new_views_have_quorums, replicas_keep_bytes, replicas_stay_in_form};
