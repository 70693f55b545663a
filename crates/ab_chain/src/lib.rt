//! Chain: a request goes from position to position, and each logs what those before it stated.
#![tactic(auto)]

mod chain;
mod route;

pub use chain::Chain;
