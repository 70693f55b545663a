//! The CHECKPOINTs that a replica keeps: of each replica the one of the most entries; which one is due,
//! and how many first entries of a log are stable.
#![tactic(auto)]

mod laws;
mod marks;

pub use laws::{
    due_entries_are_of_the_log, kept_marks_are_the_latest, stable_entries_are_found,
    stable_entries_are_marked,
};
pub use marks::Marks;
