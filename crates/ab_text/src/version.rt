//! The first line of a schedule.

/// What the first line of a schedule says: in version one schemes have one level, version three also says after how many
/// requests a checkpoint is due, and version four also names the seed of the keys.
#[derive(Clone, Copy, Debug, PartialEq, Eq)]
pub enum Version {
    One,
    Two,
    Three,
    Four,
}
