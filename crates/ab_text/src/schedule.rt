//! Schedules.

use crate::event::Event;
use crate::items::Items;
use ab_num::{Cluster, Party, Scheme, ServiceName};

/// What a cluster is set up with, the seed of its keys, and how many twins each faulty party has.
#[derive(Debug, Drop)]
pub struct Head {
    pub cluster: Cluster,
    pub service: ServiceName,
    pub lms: Scheme,
    pub seed: [u8; 32],
    pub faulty: Items<(Party, u8)>,
}

/// A cluster, and what happens in it.
#[derive(Debug, Drop)]
pub struct Schedule {
    pub head: Head,
    pub events: Items<Event>,
}
