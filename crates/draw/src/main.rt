//! Reads a schedule from standard input, runs it, and writes a picture of the run to standard output.
//!
//! It ends with 0 where the picture was written, 2 where there are words, 3 for a line that is refused, 4 for a
//! fault of standard input, 5 for one of standard output or standard error, 7 past a limit, and 9 where memory
//! was refused.
#![tactic(auto)]

use ab_command::refuse_memory;
use ab_draw::serve;
use ab_standard::{StdSink, StdSource, words};
use std::io;
use std::process::ExitCode;

fn main(rt: HostRuntime) -> ExitCode {
    let alloc = rt.alloc();
    let mut err = StdSink::new(rt.stderr());
    let is_called_with_words = match words(&rt) {
        Ok(words) => !words.is_empty(),
        // There is a word, and it isn't UTF-8.
        Err(fault) if fault.kind() == io::ErrorKind::InvalidData => true,
        Err(_) => return ExitCode::from(refuse_memory(&mut err)),
    };
    let mut input = StdSource::new(rt.reader());
    let mut out = StdSink::new(rt.stdout());
    let status = serve(alloc, is_called_with_words, &mut input, &mut out, &mut err);
    ExitCode::from(status.code())
}
