//! What a scheme gives.

ghost use Rattle.std.specs.Prelude.{◌≡◌};
ghost use Rattle.ab_scheme.specs.Schemes.{signatures_in, top_height};

use ab_num::{Height, Scheme};

/// How many signatures a key of this scheme makes: 32, 1,024 or 1,048,576.
pub fn signatures(scheme: Scheme) -> u64
    ensures { result ≡ signatures_in scheme }
{
    match scheme {
        Scheme::Lms(Height::Five) => 32,
        Scheme::Lms(Height::Ten) => 1024,
        Scheme::Hss => 1_048_576,
    }
}

/// The height of the tree at the top.
pub(crate) fn height_of(scheme: Scheme) -> Height
    ensures { result ≡ top_height scheme }
{
    match scheme {
        Scheme::Lms(height) => height,
        Scheme::Hss => Height::Ten,
    }
}
