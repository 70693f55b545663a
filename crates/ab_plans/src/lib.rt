//! A protocol that is chosen by the kind of the instance; runs of AZyzzyva, of Aliph and of ZCert, in which Backup runs over PBFT, are ordered.
#![tactic(auto)]

mod backup;
mod choice;
mod laws;
mod plans;

pub use backup::{a_backup_commits, backup_over_pbft_is_lawful};
pub use choice::Choice;
pub use laws::four_protocols_are_ordered;
pub use plans::{
    aliph_is_ordered, azyzzyva_is_ordered, runs_with_backups_are_ordered, zcert_runs_are_ordered,
};
