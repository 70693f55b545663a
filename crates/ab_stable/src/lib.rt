//! Lists that forgot their first entries, and what they say of certificates, instances and runs; and the
//! list that a certificate in received bytes agrees on, with what it brings to a replica. A CHECKPOINT is
//! what a replica states of the first entries of its log, by their number and digest; these entries are
//! stable once all replicas have stated so. No program makes one yet.
#![tactic(auto)]

mod acts;
mod certificate;
mod certs;
mod ensembles;
mod examples;
mod offers;
mod owned;
mod points;
mod runs;
mod wholes;

pub use acts::{
    checkpoints_can_be_left_out, common_beginnings_are_certified, stable_beginnings_are_certified,
    stable_beginnings_are_kept, stable_beginnings_stay, trimmed_certificates_are_valid,
};
pub use certificate::{are_whole, based_on, is_trimmed, list_of, makes_checkpoints, shows};
pub use certs::{
    certificates_are_whole, enough_lists_share_a_point, equal_lists_are_whole,
    stable_fronts_are_common,
};
pub use ensembles::{aborts_are_logs, common_fronts_are_certified, logs_begin_with_inits};
pub use examples::{
    small_beginnings_are_forgotten, small_certificates_are_known, small_checkpoints_are_there,
    two_trimmed_lists_agree, two_whole_lists_agree,
};
pub use offers::{
    agreed_lists_end_at_their_point, bases_are_offered, offered_certificates_are_valid,
    offered_histories_are_held,
};
pub use owned::{are_whole_own, list_of_own};
pub use points::{agreed_lists_are_found, whole_lists_agree_by_points};
pub use runs::{
    common_beginnings_go_on, forgotten_beginnings_are_common, reasoned_lists_are_forgotten,
    replicas_forget_what_is_common,
};
pub use wholes::{named_lists_are_whole, whole_places_are_states};
