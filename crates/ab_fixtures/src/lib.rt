//! A protocol and an orderer to try things with: one hands its base on, and one lets a single replica order.
#![tactic(auto)]

mod null;
mod solo;

pub use null::Null;
pub use solo::Solo;
