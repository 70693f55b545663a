//! PBFT over all views, of plain values: what correct replicas prepared stays, and what they execute
//! is one list. It knows no request and no message: slots hold any values, under any digest of them.
#![tactic(auto)]

mod examples;
mod laws;

pub use examples::a_view_change_executes;
pub use laws::{executed_lists_agree, executed_values_may_stand, replicas_settle, views_lock};
