//! What a party checks of a message, as one list that takes no memory, and tags and signatures checked in
//! its order over the bytes that were received.
#![tactic(auto)]

mod aborts;
mod chain;
mod check_ref;
mod checker;
mod checking;
mod checks;
mod claim_ref;
mod copied;
mod laws;
mod listing;
mod passed;
mod prepared;
mod stated_bytes;
mod text;

pub use chain::PassingRef;
pub use check_ref::{CheckRef, TokenRef};
pub use checker::Checker;
pub use checking::check;
pub use checks::Checks;
pub use claim_ref::ClaimRef;
pub use copied::copy_of;
pub use laws::claims_are_checked;
pub use listing::checks_in;
pub use stated_bytes::StatedBytes;
