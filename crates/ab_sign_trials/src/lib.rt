//! Tests of audits, key rings, one-time signatures, trees, signers, signatures in two levels and schemes: apart from their crates, so that these aren't proved once more for them.
#![tactic(auto)]

#[cfg(test)]
mod audits;
#[cfg(test)]
mod known;
#[cfg(test)]
mod once;
#[cfg(test)]
mod rings;
#[cfg(test)]
mod schemes;
#[cfg(test)]
mod signers;
#[cfg(test)]
mod standard;
#[cfg(test)]
mod trees;
#[cfg(test)]
mod two_levels;
