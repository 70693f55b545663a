//! Tests of protocols but for PBFT, of certificates, and of what forgets: apart from their crates, so that none is proved once more.
#![tactic(auto)]

#[cfg(test)]
mod certificates;
#[cfg(test)]
mod chains;
#[cfg(test)]
mod choices;
#[cfg(test)]
#[cfg(test)]
mod lights;
#[cfg(test)]
mod marks;
#[cfg(test)]
mod messages;
#[cfg(test)]
mod nulls;
#[cfg(test)]
mod quorums;
#[cfg(test)]
mod routes;
#[cfg(test)]
mod solos;
#[cfg(test)]
mod trees;
#[cfg(test)]
mod trims;
#[cfg(test)]
mod views;
#[cfg(test)]
mod zcerts;
