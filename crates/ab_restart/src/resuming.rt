//! A party's journal is opened and read.

ghost use Rattle.std.specs.Prelude.{◌≡◌, ◌<◌, ◌∷◌, IfOk, IfErr, IfSome, OnOk, is_some, length, map};
ghost use Rattle.ab_loop.specs.Past.{body_of};
ghost use Rattle.ab_journal.specs.Entries.{bodies_of};
ghost use Rattle.ab_journal.specs.Journals.{IsStanding, Opens, SameList, texts_of};
ghost use Rattle.ab_journal.specs.Keepers.{IsReadyWith, listed};
ghost use Rattle.ab_restart.specs.Causes.{HasResumeCause, IfForeign, IsForeignFault};
ghost use Rattle.ab_restart.specs.Pasts.{IsForeign, IsPast, Resumes, begun, first_body};

use crate::fault::{ResumeFault, fault_of};
use ab_disk::Disk;
use ab_journal::{Journal, JournalKeeper};
use ab_loop::Past;
use ab_mac::mark;
use std::alloc::Global;

/// What marks the digest of a node's text.
const TEXT_MARK: u8 = 10;

/// The first body of the journal of a node's text.
fn first_body(text: &[u8]) -> [u8; 33]
    ensures { result ≡ first_body text.now }
{
    let digest = mark(TEXT_MARK, text);
    let mut body = [0; 33];
    body[1..].copy_from_slice(&digest);
    body
}

/// The events of a journal that isn't empty.
fn past_of(first: &[u8], mut bodies: Vec<Vec<u8>>) -> Result<Past, ResumeFault>
    requires { 0 < length bodies.items }
    ensures past { IfOk result (λ past. IsPast first.now (texts_of bodies.items) past) }
    ensures foreign { IfErr result (λ why. IfForeign why (λ n. IsForeign first.now (texts_of bodies.items) n)) }
    ensures cause { IfErr result (λ why. IsForeignFault why) }
{
    if bodies[0].as_slice() != first {
        return Err(ResumeFault::Foreign(1));
    }
    let begin = bodies.remove(0);
    drop(begin);
    match Past::read(bodies) {
        Ok(past) => Ok(past),
        Err(n) => Err(ResumeFault::Foreign(n + 1)),
    }
}

/// Opens the journal of a disk and reads it to its end.
fn open<D: Disk>(alloc: Global, disk: &mut D) -> Result<(Journal, Vec<Vec<u8>>), ResumeFault>
    ensures stands { IfOk result (λ r. IsStanding D.model r.0 disk.new) }
    ensures bodies { IfOk result (λ r. IfSome (D.model.seen disk.old) (λ bytes. texts_of r.1.items ≡ bodies_of bytes)) }
    ensures told { is_some (D.model.seen disk.new) ≡ is_some (D.model.seen disk.old) }
    ensures list { OnOk result (SameList (D.model.seen disk.old) (D.model.seen disk.new)) }
    ensures any_moment { IfSome (D.model.seen disk.old) (λ bytes. Opens D.model disk.old disk.new (bodies_of bytes) result) }
    ensures foreign { IfErr result (λ why. IfForeign why (λ n. ⊥)) }
    ensures cause { HasResumeCause (D.model.faults disk.old) (D.model.faults disk.new) result }
{
    let journal = match Journal::open(disk) {
        Ok(journal) => journal,
        Err(fault) => return Err(fault_of(fault)),
    };
    match journal.bodies(alloc, disk) {
        Ok(bodies) => Ok((journal, bodies)),
        Err(fault) => Err(fault_of(fault)),
    }
}

/// Opens the journal of a node's text and reads it to its end. An empty journal gets its first body.
pub fn resume<D: Disk>(
    alloc: Global,
    text: &[u8],
    disk: &mut D,
) -> Result<(Past, JournalKeeper), ResumeFault>
    ensures past { IfOk result (λ r. IfSome (D.model.seen disk.old) (λ bytes. IsPast (first_body text.now) (bodies_of bytes) r.0)) }
    ensures ready { IfOk result (λ r. IsReadyWith D.model r.1 disk.new) }
    ensures told { is_some (D.model.seen disk.new) ≡ is_some (D.model.seen disk.old) }
    ensures list { OnOk result (IfSome (D.model.seen disk.old) (λ old. IfSome (D.model.seen disk.new) (λ new. bodies_of new ≡ begun (first_body text.now) (bodies_of old)))) }
    ensures kept { IfOk result (λ r. IfSome (listed (D.model.seen disk.new)) (λ bodies. bodies ≡ first_body text.now ∷ map body_of r.0)) }
    ensures foreign { IfErr result (λ why. IfForeign why (λ n. IfSome (D.model.seen disk.old) (λ bytes. IsForeign (first_body text.now) (bodies_of bytes) n))) }
    ensures any_moment { IfSome (D.model.seen disk.old) (λ bytes. Resumes D.model disk.old disk.new (first_body text.now) (bodies_of bytes) result) }
    ensures cause { HasResumeCause (D.model.faults disk.old) (D.model.faults disk.new) result }
{
    let (journal, bodies) = match open(alloc, disk) {
        Ok(found) => found,
        Err(fault) => return Err(fault),
    };
    let first = first_body(text);
    if bodies.is_empty() {
        drop(bodies);
        return match journal.append(alloc, disk, &first) {
            Ok(journal) => {
                let keeper = JournalKeeper::new(journal);
                Ok((Past::none(alloc), keeper))
            }
            Err(fault) => Err(fault_of(fault)),
        };
    }
    match past_of(&first, bodies) {
        Ok(past) => {
            let keeper = JournalKeeper::new(journal);
            Ok((past, keeper))
        }
        Err(fault) => Err(fault),
    }
}
