//! Runs a storm of random events and writes its schedule to standard output.
//!
//! The words are the options of `abstract_bft storm`. It ends with 0 where the schedule was written, 2 for words that
//! ask for no storm, 5 for a fault of standard output or standard error, 7 past the limit of packets, and 9 where memory
//! was refused.
#![tactic(auto)]

use ab_command::{refuse_memory, serve};
use ab_standard::{StdSink, texts, words};
use std::io;
use std::process::ExitCode;

fn main(rt: HostRuntime) -> ExitCode {
    let alloc = rt.alloc();
    let mut err = StdSink::new(rt.stderr());
    let words = match words(&rt) {
        Ok(words) => words,
        // No option is a word that isn't UTF-8.
        Err(fault) if fault.kind() == io::ErrorKind::InvalidData => Vec::new(alloc),
        Err(_) => return ExitCode::from(refuse_memory(&mut err)),
    };
    let Ok(texts) = texts(alloc, words.as_slice()) else {
        return ExitCode::from(refuse_memory(&mut err));
    };
    let mut out = StdSink::new(rt.stdout());
    let status = serve(alloc, texts.as_slice(), &mut out, &mut err);
    ExitCode::from(status.code())
}
