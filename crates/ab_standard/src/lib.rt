//! What a program over the standard streams stands on: a source and a sink over the readers and writers of std, its
//! words, and a disk over a file.
#![tactic(auto)]

mod arguments;
mod file_disk;
mod standard;

pub use arguments::{program, texts, words};
pub use file_disk::FileDisk;
pub use standard::{StdSink, StdSource};
