//! Tests of numbers, digests, tags, parts of bytes, the outside, histories, trimmed lists and services: apart from their crates, so that none is proved once more.
#![tactic(auto)]

#[cfg(test)]
mod datagrams;
#[cfg(test)]
mod digests;
#[cfg(test)]
mod echo;
#[cfg(test)]
mod files;
#[cfg(test)]
mod histories;
#[cfg(test)]
mod numbers;
#[cfg(test)]
mod outside;
#[cfg(test)]
mod parts;
#[cfg(test)]
mod shares;
#[cfg(test)]
mod stores;
#[cfg(test)]
mod tags;
#[cfg(test)]
mod trimmed;
#[cfg(test)]
mod trimmed_bytes;
