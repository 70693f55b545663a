//! What is answered of the bytes of a message.

use ab_open::Bad;

/// Whether bytes are a message.
#[derive(Clone, Copy, Debug, PartialEq, Eq)]
pub enum Added {
    Taken,
    /// They are none, for this defect.
    Bad(Bad),
}
