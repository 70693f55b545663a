//! What a picture of a run shows, and its text as SVG.
#![tactic(auto)]

mod composing;
mod escaping;
mod frame;
mod labels;
mod lanes;
mod layout;
mod lines;
mod marks;
mod names;
mod parts;
mod picture;
mod whole;

pub use composing::compose;
pub use picture::{Arrow, Lane, Mark, Moment, Picture, SentPacket, Sign, Stub, Tale, Trigger};
pub use whole::svg;
