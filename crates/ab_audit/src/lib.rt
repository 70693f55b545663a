//! Replicas that contradict themselves, by their own signatures in messages.
#![tactic(auto)]

mod accusation;
mod added;
mod audit;
mod kept;
mod laws;
mod report;
mod subject;
mod telling;
mod tried;
mod verdict;
mod words;

pub use accusation::Accusation;
pub use added::Added;
pub use audit::Audit;
pub use laws::{
    audits_accuse_contradictions, correct_replicas_are_not_accused, evidence_contradicts,
    signed_statements_are_checked,
};
pub use telling::{Audited, audit_text};
