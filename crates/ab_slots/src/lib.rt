//! What a replica of PBFT goes by: the slots of a view, votes, certificates, the view changes and requests that it keeps, what
//! comes, and what others hear of.
#![tactic(auto)]

pub mod certs;
mod change;
mod choosing;
mod digest;
pub mod kept;
mod notice;
mod reading;
pub mod slot_vote;
mod slots;
pub mod waiting;

pub use change::{Cert, Change};
pub use choosing::chosen;
pub use digest::slot_digest;
pub use notice::Notice;
pub use reading::{ChangeReading, ProvedSlot, Reading, into_changes, may_enter};
pub use slots::Slots;
