//! Tests of the command over objects in memory: apart from its crate, so that it isn't proved once more for them.
#![tactic(auto)]

#[cfg(test)]
mod calls;
#[cfg(test)]
mod clusters;
#[cfg(test)]
mod faults;
#[cfg(test)]
mod journals;
#[cfg(test)]
mod nodes;
#[cfg(test)]
mod replays;
#[cfg(test)]
mod storms;
#[cfg(test)]
mod words;
