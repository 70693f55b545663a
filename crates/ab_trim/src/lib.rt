//! Lists of requests that have forgotten their first entries.
#![tactic(auto)]

mod agreeing;
mod chain;
mod head;
mod known;
mod lasts;
mod lists;
mod owning;
mod points;
mod rest;
mod trimmed;
mod writing;

pub use agreeing::agreed_list;
pub use known::{
    logs_of_one_history_agree, nothing_forgotten_all_known, requests_are_known,
    unknown_requests_stay_out,
};
pub use lists::{
    grounded_lists_are_whole, links_are_histories, lists_stand_for_one_history, lists_stay,
};
pub use owning::{own_trimmed, trimmed_of};
pub use points::{agreed_lists_are_one, agreed_lists_are_there};
pub use trimmed::Trimmed;
pub use writing::put_trimmed;
