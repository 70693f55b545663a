//! What the service would answer to a request that may yet not be logged.
#![tactic(auto)]

mod trial;

pub use trial::{Trial, digest_with};
