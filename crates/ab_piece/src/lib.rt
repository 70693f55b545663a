//! Messages in pieces that fit into datagrams: cut, and joined again.
#![tactic(auto)]

mod cutting;
mod datagram;
mod joiner;
mod laws;
mod open_message;
mod reading;
mod taken;

pub use cutting::{Pieces, cut};
pub use joiner::Joiner;
pub use laws::{
    cut_messages_come_whole, cut_pieces_are_read, open_messages_are_bounded, pieces_are_read,
    whole_messages_came,
};
pub use taken::{DropCause, Taken};
