//! Tests of a replica, of a client, of setups, of what a world keeps, and of members as nodes drive them: apart from their crates, so that none is proved once more.
#![tactic(auto)]

#[cfg(test)]
mod clients;
#[cfg(test)]
mod kept;
#[cfg(test)]
mod left;
#[cfg(test)]
mod members;
#[cfg(test)]
mod replicas;
#[cfg(test)]
mod setups;
