//! A store of keys and values, as a service.
#![tactic(auto)]

mod command;
mod kv;
mod laws;

pub use kv::Kv;
pub use laws::{bad_is, cas_is, commands_are_spelled, del_is, get_is, put_is, store_is_bounded};
