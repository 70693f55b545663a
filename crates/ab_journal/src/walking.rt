//! The entries of a journal, gone over where they stand.

ghost use Rattle.std.specs.Prelude.{◌≡◌, ◌<◌, ◌≤◌, IfOk, IfSome, length, slice_get};
ghost use Rattle.ab_disk.specs.Causes.{HasCause};
ghost use Rattle.ab_disk.specs.Disks.{Rests};
ghost use Rattle.ab_journal.specs.Journals.{IsEnd, IsHead, IsNext, IsSize, Keeps, place_behind};

use ab_disk::Disk;
use ab_io::Failed;
use ab_num::get_u32;

/// The byte at this place, if there is one.
pub(crate) fn byte_at<D: Disk>(disk: &mut D, at: u64) -> Result<Option<u8>, Failed>
    ensures byte { IfOk result (λ r. IfSome (D.model.seen disk.old) (λ bytes. r ≡ slice_get bytes at)) }
    ensures rests { Rests D.model disk.old disk.new }
    ensures cause { HasCause (D.model.faults disk.old) (D.model.faults disk.new) result }
{
    let mut buf = [0u8; 1];
    match disk.read(at, &mut buf) {
        Ok(count) => Ok(if count == 1 { Some(buf[0]) } else { None }),
        Err(Failed) => Err(Failed),
    }
}

/// What stands in the head of an entry: the length of its body, if its gate is 1.
fn size_in(head: &[u8; 5], count: usize) -> Option<u32>
    ensures { IsSize head.now count result }
{
    if count == 5 && head[0] == 1 {
        get_u32(head, 1)
    } else {
        None
    }
}

/// The length of the body of the entry at this place, if its gate is 1 and its head is whole.
pub(crate) fn head_at<D: Disk>(disk: &mut D, at: u64) -> Result<Option<u32>, Failed>
    ensures head { IfOk result (λ r. IfSome (D.model.seen disk.old) (λ bytes. IsHead bytes at r)) }
    ensures rests { Rests D.model disk.old disk.new }
    ensures cause { HasCause (D.model.faults disk.old) (D.model.faults disk.new) result }
{
    let mut head = [0u8; 5];
    match disk.read(at, &mut head) {
        Ok(count) => {
            let size = size_in(&head, count);
            Ok(size)
        }
        Err(Failed) => Err(Failed),
    }
}

/// The place behind an entry with this body, if it lies within the disk.
pub(crate) fn behind(at: u64, len: u64, size: Option<u32>) -> Option<u64>
    requires { at ≤ len }
    ensures { result ≡ place_behind at len size }
{
    match size {
        None => None,
        Some(size) => {
            let size = u64::from(size);
            if size + 5 <= len - at {
                Some(at + 5 + size)
            } else {
                None
            }
        }
    }
}

/// The place behind the entry at this place, if it is there.
fn next_at<D: Disk>(disk: &mut D, at: u64, len: u64) -> Result<Option<u64>, Failed>
    requires { at ≤ len }
    ensures next { IfOk result (λ r. IfSome (D.model.seen disk.old) (λ bytes. len ≡ length bytes → IsNext bytes at r)) }
    ensures within { IfOk result (λ r. IfSome r (λ next. (at < next) × (next ≤ len))) }
    ensures rests { Rests D.model disk.old disk.new }
    ensures cause { HasCause (D.model.faults disk.old) (D.model.faults disk.new) result }
{
    match head_at(disk, at) {
        Ok(size) => Ok(behind(at, len, size)),
        Err(Failed) => Err(Failed),
    }
}

/// Where the entries end.
pub(crate) fn end_of<D: Disk>(disk: &mut D, len: u64) -> Result<u64, Failed>
    ensures end { IfOk result (λ end. IfSome (D.model.seen disk.old) (λ bytes. len ≡ length bytes → IsEnd bytes end)) }
    ensures within { IfOk result (λ end. end ≤ len) }
    ensures keeps { Keeps D.model disk.old disk.new }
    ensures cause { HasCause (D.model.faults disk.old) (D.model.faults disk.new) result }
{
    let mut at = 0u64;
    'entries: while at < len {
        match next_at(disk, at, len) {
            Ok(Some(next)) => at = next,
            Ok(None) => return Ok(at),
            Err(Failed) => return Err(Failed),
        }
    }
    Ok(at)
}
