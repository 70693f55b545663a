//! Parts that are added to bytes. Where memory is refused, the bytes stay as they were.

ghost use Rattle.std.specs.Prelude.{◌≡◌, ◌++◌, OnOk, OnErr};
ghost use Rattle.ab_form.specs.Formats.{u8_bytes, u16_bytes, u32_bytes, u64_bytes};

use ab_num::OutOfMemory;
use std::alloc::Global;

/// Adds bytes as they are.
pub fn put_bytes(_alloc: Global, out: &mut Vec<u8>, bytes: &[u8]) -> Result<(), OutOfMemory>
    ensures ok { OnOk result (out.new.items ≡ out.old.items ++ bytes.now) }
    ensures err { OnErr result (out.new.items ≡ out.old.items) }
{
    out.extend_from_slice(bytes)?;
    Ok(())
}

/// Adds a byte.
#[tactic(auto, unfolding(crate::specs::Formats::u8_bytes))]
pub fn put_u8(alloc: Global, out: &mut Vec<u8>, n: u8) -> Result<(), OutOfMemory>
    ensures ok { OnOk result (out.new.items ≡ out.old.items ++ u8_bytes n) }
    ensures err { OnErr result (out.new.items ≡ out.old.items) }
{
    put_bytes(alloc, out, &n.to_be_bytes())
}

/// Adds a number of two bytes, big-endian.
#[tactic(auto, unfolding(crate::specs::Formats::u16_bytes))]
pub fn put_u16(alloc: Global, out: &mut Vec<u8>, n: u16) -> Result<(), OutOfMemory>
    ensures ok { OnOk result (out.new.items ≡ out.old.items ++ u16_bytes n) }
    ensures err { OnErr result (out.new.items ≡ out.old.items) }
{
    put_bytes(alloc, out, &n.to_be_bytes())
}

/// Adds a number of four bytes, big-endian.
#[tactic(auto, unfolding(crate::specs::Formats::u32_bytes))]
pub fn put_u32(alloc: Global, out: &mut Vec<u8>, n: u32) -> Result<(), OutOfMemory>
    ensures ok { OnOk result (out.new.items ≡ out.old.items ++ u32_bytes n) }
    ensures err { OnErr result (out.new.items ≡ out.old.items) }
{
    put_bytes(alloc, out, &n.to_be_bytes())
}

/// Adds a number of eight bytes, big-endian.
#[tactic(auto, unfolding(crate::specs::Formats::u64_bytes))]
pub fn put_u64(alloc: Global, out: &mut Vec<u8>, n: u64) -> Result<(), OutOfMemory>
    ensures ok { OnOk result (out.new.items ≡ out.old.items ++ u64_bytes n) }
    ensures err { OnErr result (out.new.items ≡ out.old.items) }
{
    put_bytes(alloc, out, &n.to_be_bytes())
}
