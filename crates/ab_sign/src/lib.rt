//! Who signs for a replica, who tells whether a tag or a signature is right, and the signatures that are known to verify.
#![tactic(auto)]

mod key;
mod known;
mod laws;
mod pen;
mod signers;
mod sure;
mod verifier;

pub use key::SignKey;
pub use known::{Known, LONGEST_CONTENT, LONGEST_SIGNATURE};
pub use laws::signatures_are_right;
pub use pen::Pen;
pub use signers::Signers;
pub use verifier::Verifier;
