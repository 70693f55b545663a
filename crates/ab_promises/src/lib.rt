//! What each protocol promises by itself, PBFT's lock said of lists of acts, what a correct replica states once, and that no
//! audit accuses it: laws alone.
#![tactic(auto)]

mod audits;
mod examples;
mod kinds;
mod locks;
mod once;
mod own;

pub use audits::runs_accuse_no_correct_replica;
pub use examples::{
    four_replicas_answer, four_replicas_begin, three_replicas_commit, two_replicas_lock,
    two_replicas_prepare,
};
pub use kinds::replicas_begin_and_stop;
pub use locks::{
    pbft_locks_views, pbft_signs_once, prepared_values_lock, replicas_sign_once, runs_lock_views,
};
pub use once::{
    calls_state_no_aborts, correct_replicas_act_by_themselves, correct_replicas_state_once,
    lawful_replicas_abort_once, pbft_replicas_prepare_once,
};
pub use own::{
    backup_calls_are_abstract, chain_calls_are_abstract, own_calls_are_abstract,
    pbft_calls_are_abstract, quorum_calls_are_abstract, runs_call_their_own,
    zcert_calls_are_abstract, zlight_calls_are_abstract,
};
