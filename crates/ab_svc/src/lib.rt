//! The service that a cluster replicates: a function of its state and a request.
#![tactic(auto)]

mod echo;
mod service;

pub use ab_hist::Reply;
pub use echo::Echo;
pub use service::Service;
