//! The text of an audit: the public keys of a cluster's replicas, and messages.
#![tactic(auto)]

mod hex_bytes;
mod laws;
mod reading;
mod text;

pub use laws::{fault_is_first, read_is_spelled, spelled_is_read};
pub use reading::read_audit;
pub use text::AuditText;
