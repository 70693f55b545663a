//! What is wrong with bytes.

use thiserror::Error;

/// The first defect of bytes that are not what they should be.
#[derive(Clone, Copy, Debug, PartialEq, Eq, Error)]
pub enum Bad {
    /// The bytes end within a part.
    #[error("the bytes end within a part")]
    Short,
    /// A code is none that is allowed there.
    #[error("a code is none that is allowed there")]
    BadCode,
    /// A count or a length is out of its bounds.
    #[error("a count or a length is out of its bounds")]
    BadLength,
    /// Another value is out of its bounds, or a stated order is broken.
    #[error("a value is out of its bounds, or out of order")]
    BadField,
    /// Bytes follow the whole.
    #[error("bytes follow the whole")]
    Trailing,
}
