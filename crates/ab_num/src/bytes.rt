//! Big-endian numbers in a buffer.

ghost use Rattle.std.specs.Prelude.{◌≡◌, ◌+◌, ◌≤◌, ◌++◌, length, take, drop, SomeIff};
ghost use Rattle.std.specs.Int.{w16, w32, w64, to_be_bytes, from_be_bytes};

/// Writes `v` into the two bytes from `at`.
pub fn put_u16(buf: &mut [u8], at: usize, v: u16)
    requires { at + 2 ≤ length buf.old }
    ensures { buf.new ≡ take at buf.old ++ to_be_bytes w16 v ++ drop (at + 2) buf.old }
{
    buf[at..at + 2].copy_from_slice(&v.to_be_bytes());
}

/// Writes `v` into the four bytes from `at`.
pub fn put_u32(buf: &mut [u8], at: usize, v: u32)
    requires { at + 4 ≤ length buf.old }
    ensures { buf.new ≡ take at buf.old ++ to_be_bytes w32 v ++ drop (at + 4) buf.old }
{
    buf[at..at + 4].copy_from_slice(&v.to_be_bytes());
}

/// Writes `v` into the eight bytes from `at`.
pub fn put_u64(buf: &mut [u8], at: usize, v: u64)
    requires { at + 8 ≤ length buf.old }
    ensures { buf.new ≡ take at buf.old ++ to_be_bytes w64 v ++ drop (at + 8) buf.old }
{
    buf[at..at + 8].copy_from_slice(&v.to_be_bytes());
}

/// The number in the two bytes from `at`. None where fewer are there.
pub fn get_u16(buf: &[u8], at: usize) -> Option<u16>
    ensures { SomeIff result (at + 2 ≤ length buf.now) (from_be_bytes w16 (take 2 (drop at buf.now))) }
{
    if buf.len() >= 2 && at <= buf.len() - 2 {
        Some(u16::from_be_bytes([buf[at], buf[at + 1]]))
    } else {
        None
    }
}

/// The number in the four bytes from `at`. None where fewer are there.
pub fn get_u32(buf: &[u8], at: usize) -> Option<u32>
    ensures { SomeIff result (at + 4 ≤ length buf.now) (from_be_bytes w32 (take 4 (drop at buf.now))) }
{
    let bytes = buf.get(at..)?.first_chunk::<4>()?;
    Some(u32::from_be_bytes(*bytes))
}

/// The number in the eight bytes from `at`. None where fewer are there.
pub fn get_u64(buf: &[u8], at: usize) -> Option<u64>
    ensures { SomeIff result (at + 8 ≤ length buf.now) (from_be_bytes w64 (take 8 (drop at buf.now))) }
{
    let bytes = buf.get(at..)?.first_chunk::<8>()?;
    Some(u64::from_be_bytes(*bytes))
}
