//! What a party's journal tells before its node begins.
#![tactic(auto)]

mod fault;
mod laws;
mod resuming;

pub use fault::ResumeFault;
pub use laws::pasts_are_kept;
pub use resuming::resume;
