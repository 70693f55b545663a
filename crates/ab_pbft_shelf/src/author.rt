//! Who signs.

use ab_num::Cluster;

/// Replica `me` of an instance of a cluster, which signs and sends.
#[derive(Clone, Copy, Debug, PartialEq, Eq)]
pub struct Author {
    pub cluster: Cluster,
    pub instance: u32,
    pub me: u8,
}
