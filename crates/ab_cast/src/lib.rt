//! The cores of a cluster in one program: one for each correct party, up to four for a faulty one,
//! and the key rings with which what comes to them is opened and what they send is sealed.
#![tactic(auto)]

mod cast;
mod cores;
mod laws;
mod place;
mod setup;

pub use cast::{Cast, places_have_cores};
pub use laws::faulty_parties_have_their_cores;
pub use place::Place;
pub use setup::Setup;
