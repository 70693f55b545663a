//! Why a call to the outside was not done.

use thiserror::Error;

/// The outside failed, and its count of faults has risen.
#[derive(Clone, Copy, Debug, PartialEq, Eq, Error)]
#[error("the outside failed")]
pub struct Failed;

/// Why nothing was taken.
#[derive(Clone, Copy, Debug, PartialEq, Eq, Error)]
pub enum Refused {
    /// The outside failed.
    #[error("the outside failed")]
    Failed,
    /// There was no memory for what was given.
    #[error("out of memory")]
    OutOfMemory,
}
