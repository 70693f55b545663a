//! Tests of messages that are copied, of the longest ones, of opening, of pieces, of a node's loop and of the journal that it goes on with, and of ABORTs of trimmed logs: apart from their crates, so that none is proved once more.
#![tactic(auto)]

#[cfg(test)]
mod copies;
#[cfg(test)]
mod journals;
#[cfg(test)]
mod lengths;
#[cfg(test)]
mod nodes;
#[cfg(test)]
mod opening;
#[cfg(test)]
mod pieces;
#[cfg(test)]
mod trimmed;
