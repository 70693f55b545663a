//! Lists as their bytes.

ghost use Rattle.std.specs.Prelude.{◌≡◌, ◌++◌, OnOk};
ghost use Rattle.ab_msg.specs.Fields.{spell_history, spell_trimmed};

use crate::trimmed::Trimmed;
use ab_form::put_u16;
use ab_num::OutOfMemory;
use ab_write::{Spelled, put_front};
use std::alloc::Global;

/// Adds a list, without the last requests that it knows.
pub fn put_trimmed(alloc: Global, out: &mut Vec<u8>, list: &Trimmed) -> Result<(), OutOfMemory>
    ensures { OnOk result (out.new.items ≡ out.old.items ++ spell_trimmed list.now.list) }
{
    if list.start() > 0 {
        put_front(alloc, out, list.start() as u16, &list.digest())?;
    }
    put_rest(alloc, out, list)
}

/// Adds the entries that aren't forgotten.
fn put_rest(alloc: Global, out: &mut Vec<u8>, list: &Trimmed) -> Result<(), OutOfMemory>
    ensures { OnOk result (out.new.items ≡ out.old.items ++ spell_history list.now.list.rest) }
{
    let start = list.start();
    let count = list.len() - start;
    put_u16(alloc, out, count as u16)?;
    'entries: for k in 0..count {
        list.at(start + k + 1).put(alloc, out)?;
    }
    Ok(())
}
