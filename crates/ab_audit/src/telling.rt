//! The text of an audit is read, and what its messages tell is reported.

ghost use Rattle.std.specs.Prelude.{◌≡◌, ◌<◌, ◌^◌, IfOk, IfErr, OnOk, count_by, length};
ghost use Rattle.ab_text.specs.Lines.{lines_of};
ghost use Rattle.ab_key_text.specs.Lines.{Fails};
ghost use Rattle.ab_audit_text.specs.Texts.{audit_in};
ghost use Rattle.ab_audit.specs.Audits.{told_all};
ghost use Rattle.ab_audit.specs.Tellings.{Audits, is_bad};

use crate::added::Added;
use crate::audit::Audit;
use crate::laws::audits_accuse_contradictions;
use crate::report::report_of;
use ab_audit_text::{read_audit, read_is_spelled};
use ab_key_text::NodeFault;
use ab_num::OutOfMemory;
use ab_text::Items;
use std::alloc::Global;

/// What an audit told: its report, and whether someone is accused.
#[derive(Drop)]
pub struct Audited {
    pub report: Vec<u8>,
    pub accuses: bool,
}

/// Adds these messages, and gives how many of them could not be read.
fn add_all(alloc: Global, audit: &mut Audit, messages: &[Items<u8>]) -> Result<u64, OutOfMemory>
    ensures told { OnOk result (audit.new ≡ told_all audit.old messages.now) }
    ensures bad { IfOk result (λ n. n ≡ count_by is_bad messages.now) }
{
    let mut bad = 0;
    'messages: for (index, message) in messages.iter().enumerate() {
        match audit.add(alloc, index as u64 + 1, message.as_slice())? {
            Added::Taken => {}
            Added::Bad(_) => bad += 1,
        }
    }
    Ok(bad)
}

/// Audits the messages of a text. If asked `why`, the report tells which messages show each accusation. A bad line is
/// the first that isn't as stated; if the text ends before its end, that line is missing.
pub fn audit_text(alloc: Global, text: &[u8], why: bool) -> Result<Audited, NodeFault>
    requires { length text.now < 2 ^ 31 }
    ensures ok { IfOk result (λ a. Audits why text.now a.report.items a.accuses) }
    ensures cause { IfErr result (λ e. Fails e (audit_in (lines_of text.now))) }
{
    let input = read_audit(alloc, text)?;
    read_is_spelled();
    audits_accuse_contradictions();
    let messages = input.messages();
    let mut audit = Audit::new(alloc, input.cluster(), input.publics())?;
    let bad = add_all(alloc, &mut audit, messages)?;
    let accused = audit.accusations(alloc)?;
    let listed = accused.as_slice();
    let report = report_of(alloc, &audit, why, listed, messages.len() as u64, bad)?;
    Ok(Audited {
        report,
        accuses: !listed.is_empty(),
    })
}
