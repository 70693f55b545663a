//! Which protocol each instance of a plan runs, and what a cluster is set up with.

/// The protocol of one instance.
#[derive(Clone, Copy, Debug, PartialEq, Eq)]
pub enum Kind {
    Quorum,
    ZLight,
    Chain,
    Backup,
    ZCert,
}

/// Which protocol each instance has.
#[derive(Clone, Copy, Debug, PartialEq, Eq)]
pub enum Plan {
    AZyzzyva,
    Aliph,
    Quorum,
    ZLight,
    Chain,
    Backup,
    ZCert,
}

/// The service that a cluster replicates.
#[derive(Clone, Copy, Debug, PartialEq, Eq)]
pub enum ServiceName {
    Echo,
    Kv,
}

/// The height of a signer's tree: it signs 2^5 or 2^10 times.
#[derive(Clone, Copy, Debug, PartialEq, Eq)]
pub enum Height {
    Five,
    Ten,
}

/// How a replica signs: by one tree, or by trees of height ten in two levels.
#[derive(Clone, Copy, Debug, PartialEq, Eq)]
pub enum Scheme {
    Lms(Height),
    Hss,
}
