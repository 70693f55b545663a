//! What is refused of an input.

ghost use Rattle.std.specs.Prelude.{◌≡◌, IfOk, string_bytes};
ghost use Rattle.ab_replay.specs.Refusals.{cause_text, refusal_text};

use std::alloc::{AllocError, Global};

/// What is wrong with a line of the input.
#[derive(Clone, Copy, Debug, PartialEq, Eq)]
pub enum RefusalCause {
    /// It is out of form.
    BadLine,
    /// The text ends before it.
    NoEnd,
    /// It asks for what isn't built.
    NotBuilt,
    /// No packet has this number.
    NoPacket,
    /// The cluster has no such core.
    BadParty,
    /// The client has a request open.
    Busy,
}

/// The first line of the input that is refused, and why.
#[derive(Clone, Copy, Debug, PartialEq, Eq)]
pub struct Refusal {
    pub line: u32,
    pub cause: RefusalCause,
}

impl RefusalCause {
    fn text(self) -> &'static str
        ensures { result.now ≡ cause_text self }
    {
        match self {
            RefusalCause::BadLine => "bad line",
            RefusalCause::NoEnd => "no end",
            RefusalCause::NotBuilt => "not built",
            RefusalCause::NoPacket => "no packet",
            RefusalCause::BadParty => "bad party",
            RefusalCause::Busy => "busy",
        }
    }
}

/// What is said of a refused line.
pub fn refusal_line(alloc: Global, refusal: Refusal) -> Result<String, AllocError>
    ensures { IfOk result (λ s. string_bytes s ≡ refusal_text refusal) }
{
    let line = refusal.line;
    let cause = refusal.cause.text();
    format!(in alloc; "line {line}: {cause}\n")
}
