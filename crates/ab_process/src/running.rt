//! One program that was started.

use ab_cluster::Ended;
use ab_io::Refused;
use std::alloc::Global;
use std::io::{ErrorKind, Read, Write};
use std::mem;
use std::process::{Child, OpenProcess};

/// A child, and what was read of its output.
#[derive(Drop)]
pub(crate) struct Running<P: OpenProcess + Drop> {
    child: Child<P>,
    out: Vec<u8>,
    /// Why its output isn't whole.
    fault: Option<Refused>,
}

/// Why a stream wasn't read to its end.
fn refusal(kind: ErrorKind) -> Refused {
    if kind == ErrorKind::OutOfMemory {
        Refused::OutOfMemory
    } else {
        Refused::Failed
    }
}

impl<P: OpenProcess + Drop> Running<P> {
    /// A child that gets this input. One that has ended takes none of it, and its status tells why.
    pub(crate) fn new(alloc: Global, mut child: Child<P>, input: &[u8]) -> Running<P> {
        if let Some(mut stdin) = child.stdin.take() {
            let _ = stdin.write_all(input);
        }
        Running {
            child,
            out: Vec::new(alloc),
            fault: None,
        }
    }

    /// Reads its output to the end, once.
    pub(crate) fn read(&mut self) {
        if let Some(mut stdout) = self.child.stdout.take() {
            if let Err(fault) = stdout.read_to_end(&mut self.out) {
                self.fault = Some(refusal(fault.kind()));
            }
        }
    }

    /// Waits for it, and answers how it ended. A child that a signal has ended has no status.
    pub(crate) fn end(&mut self, alloc: Global) -> Result<Ended, Refused> {
        let Ok(status) = self.child.wait() else {
            return Err(Refused::Failed);
        };
        if let Some(fault) = self.fault {
            return Err(fault);
        }
        let Some(code) = status.code() else {
            return Err(Refused::Failed);
        };
        match u8::try_from(code) {
            Ok(status) => Ok(Ended {
                status,
                out: mem::replace(&mut self.out, Vec::new(alloc)),
            }),
            Err(_) => Err(Refused::Failed),
        }
    }
}
