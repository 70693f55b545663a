//! Messages from their bytes, and messages that a party opens: read, taken, and each claim in them checked.
#![tactic(auto)]

mod checked;
mod claimed;
mod fault;
mod formats;
mod laws;
mod naming;
mod opening;
mod owning;
mod reading;
mod taking;
mod trimmed;

pub use ab_form::Bad;
pub use ab_wire::MsgRef;
pub use checked::Checked;
pub use claimed::Claims;
pub use fault::OpenFault;
pub use formats::messages_are_formats;
pub use laws::{
    opened_messages_are_checked, opened_messages_are_of_the_grammar, own_statements_are_refused,
    trimmed_lists_need_checkpoints,
};
pub use opening::open;
pub use owning::claims;
pub use reading::read;
