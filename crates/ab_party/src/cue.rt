//! What comes to a replica or a client.

use ab_wire::MsgRef;

/// A message that the party opened, or that its timer has run out.
#[derive(Clone, Copy, Debug)]
pub enum Cue<'a> {
    Message(MsgRef<'a>),
    Time,
}
