//! The first line of a key text.

ghost use Rattle.std.specs.Prelude.{◌≡◌, ◌≤◌};
ghost use Rattle.ab_key_text.specs.Versions.{key_head_count, key_version_of, key_version_with};

use ab_num::Scheme;

/// What the first line of a key text says: in version one schemes have one level, in version two they have two, and in
/// version three, which has both, checkpoints are due.
#[derive(Clone, Copy, Debug, PartialEq, Eq)]
pub(crate) enum KeyVersion {
    One,
    Two,
    Three,
}

/// How many lines come before the keys in a text of this version.
pub(crate) fn head_count(version: KeyVersion) -> u32
    ensures count { result ≡ key_head_count version }
    ensures few { result ≤ 8 }
{
    match version {
        KeyVersion::One | KeyVersion::Two => 7,
        KeyVersion::Three => 8,
    }
}

/// The version of a key text with the scheme and without checkpoints.
fn key_version_with(scheme: Scheme) -> KeyVersion
    ensures { result ≡ key_version_with scheme }
{
    match scheme {
        Scheme::Lms(_) => KeyVersion::One,
        Scheme::Hss => KeyVersion::Two,
    }
}

/// The version of a key text in whose cluster a checkpoint is due after `every` requests (0: never).
pub(crate) fn key_version_of(every: u16, scheme: Scheme) -> KeyVersion
    ensures { result ≡ key_version_of every scheme }
{
    if every == 0 {
        key_version_with(scheme)
    } else {
        KeyVersion::Three
    }
}
