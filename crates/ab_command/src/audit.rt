//! The command `audit`.

ghost use Rattle.std.specs.Prelude.{◌≡◌, ◌<◌, ◌^◌, IfErr, IfOk, length};
ghost use Rattle.ab_audit.specs.Tellings.{Audits};
ghost use Rattle.ab_command.specs.Audits.{AuditCause, TextCause, fault_of_audit};
ghost use Rattle.ab_command.specs.Endings.{HasInput};

use ab_audit::{Audited, audit_text};
use ab_io::Source;
use ab_key_text::NodeFault;
use ab_replay::{ReadFault, Refusal, RefusalCause, ReplayFault, read_all};
use std::alloc::Global;

/// Why a text that isn't that of an audit, or of commands, has no report.
pub(crate) fn fault_of_audit(fault: NodeFault) -> ReplayFault
    ensures { result ≡ fault_of_audit fault }
{
    match fault {
        NodeFault::BadLine(line) => ReplayFault::Refused(Refusal {
            line,
            cause: RefusalCause::BadLine,
        }),
        NodeFault::NoEnd(line) => ReplayFault::Refused(Refusal {
            line,
            cause: RefusalCause::NoEnd,
        }),
        NodeFault::OutOfMemory => ReplayFault::OutOfMemory,
    }
}

/// The report of the audit that a text spells.
fn tell(alloc: Global, text: &[u8], why: bool) -> Result<Audited, ReplayFault>
    requires { length text.now < 2 ^ 31 }
    ensures ok { IfOk result (λ a. Audits why text.now a.report.items a.accuses) }
    ensures cause { IfErr result (λ e. TextCause e text.now) }
{
    match audit_text(alloc, text, why) {
        Ok(audited) => Ok(audited),
        Err(fault) => Err(fault_of_audit(fault)),
    }
}

/// The report of the audit that an input spells.
pub(crate) fn audit_input<I: Source>(
    alloc: Global,
    input: &mut I,
    why: bool,
) -> Result<Audited, ReplayFault>
    ensures ok { IfOk result (λ a. HasInput (λ text. Audits why text a.report.items a.accuses) (I.state input.old).left) }
    ensures cause { IfErr result (λ e. AuditCause e (I.state input.old).left (I.state input.old).faults (I.state input.new).faults) }
{
    match read_all(alloc, input) {
        Err(ReadFault::Failed) => Err(ReplayFault::Read),
        Err(ReadFault::TooLong) => Err(ReplayFault::TooLong),
        Err(ReadFault::OutOfMemory) => Err(ReplayFault::OutOfMemory),
        Ok(text) => tell(alloc, text.as_slice(), why),
    }
}
