//! Pictures of the runs that schedules spell.
#![tactic(auto)]

mod drawing;
mod parcels;
mod top;

pub use drawing::draw;
pub use top::serve;
