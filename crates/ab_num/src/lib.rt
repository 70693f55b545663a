//! Parties, plans and clusters, and numbers in bytes.
#![tactic(auto)]

mod bytes;
mod cluster;
mod cursor;
mod limits;
mod memory;
mod party;
mod plan;

pub use bytes::{get_u16, get_u32, get_u64, put_u16, put_u32, put_u64};
pub use cluster::Cluster;
pub use cursor::Cur;
pub use limits::{LONGEST_MESSAGE, MOST_EVENTS};
pub use memory::OutOfMemory;
pub use party::Party;
pub use plan::{Height, Kind, Plan, Scheme, ServiceName};
