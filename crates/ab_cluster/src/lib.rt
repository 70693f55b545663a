//! Programs that are started, each with words and an input, and gathered; a spawner in memory; and the jobs and the report of a
//! cluster.
#![tactic(auto)]

mod calls;
mod gathering;
mod jobs;
mod laws;
mod memory;
mod report;
mod spawner;

pub use gathering::{ChildJob, Gathered, gather};
pub use jobs::cluster_jobs;
pub use laws::{conclusions_are_counted, jobs_are_nodes};
pub use memory::{MemSpawner, Started};
pub use report::{Conclusion, cluster_report, conclusion_of};
pub use spawner::{Ended, Spawner};
