//! Messages with the tags of their makers, and the bytes of what a party states in them.
#![tactic(auto)]

mod chain;
mod laws;
mod message;
mod passing;
mod receivers;
mod repeats;
mod sealed;
mod sealing;
mod tags;
mod texts;

pub use laws::stated_contents_have_bytes;
pub use message::stated;
pub use repeats::is_sealed_alike;
pub use sealed::{drafts_are_sealed_as_messages, sealed_messages_are_right};
pub use sealing::seal;
pub use texts::Texts;
