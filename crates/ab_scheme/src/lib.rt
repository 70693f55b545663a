//! Keys and signatures by scheme: of one tree (LMS), or of trees in two levels (HSS).
#![tactic(auto)]

mod laws;
mod public;
mod published;
mod scheme;
mod secret;
mod verification;

pub use laws::{
    keys_have_their_length, scheme_verification_is_a_test, signatures_by_a_scheme_verify,
    signatures_have_their_length,
};
pub use public::PublicKey;
pub use scheme::signatures;
pub use secret::SecretKey;
pub use verification::verify_by;
