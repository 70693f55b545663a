//! Readers of parts. Each gives a value and the bytes behind it, or the first defect, and takes no
//! memory.

ghost use Rattle.std.specs.Prelude.{◌≡◌, ◌≤◌, length, IfOk};
ghost use Rattle.std.specs.Int.{w8, w16, w32, w64};
ghost use Rattle.ab_form.specs.Readers.{Gives, bytes_at, number_at, ranged_at, text_at};

use crate::bad::Bad;

/// A byte.
pub fn u8_at(bytes: &[u8]) -> Result<(u8, &[u8]), Bad>
    ensures { Gives (λ x. (x.0, x.1.now)) result (number_at w8 bytes.now) }
{
    match bytes {
        [] => Err(Bad::Short),
        [first, rest @ ..] => Ok((*first, rest)),
    }
}

/// A number of two bytes, big-endian.
pub fn u16_at(bytes: &[u8]) -> Result<(u16, &[u8]), Bad>
    ensures { Gives (λ x. (x.0, x.1.now)) result (number_at w16 bytes.now) }
{
    if bytes.len() < 2 {
        return Err(Bad::Short);
    }
    let (front, rest) = bytes.split_at(2);
    Ok((u16::from_be_bytes([front[0], front[1]]), rest))
}

/// A number of four bytes, big-endian.
pub fn u32_at(bytes: &[u8]) -> Result<(u32, &[u8]), Bad>
    ensures { Gives (λ x. (x.0, x.1.now)) result (number_at w32 bytes.now) }
{
    if bytes.len() < 4 {
        return Err(Bad::Short);
    }
    let (front, rest) = bytes.split_at(4);
    let number = u32::from_be_bytes([front[0], front[1], front[2], front[3]]);
    Ok((number, rest))
}

/// A number of eight bytes, big-endian.
pub fn u64_at(bytes: &[u8]) -> Result<(u64, &[u8]), Bad>
    ensures { Gives (λ x. (x.0, x.1.now)) result (number_at w64 bytes.now) }
{
    if bytes.len() < 8 {
        return Err(Bad::Short);
    }
    let (front, rest) = bytes.split_at(8);
    let number = u64::from_be_bytes([
        front[0], front[1], front[2], front[3], front[4], front[5], front[6], front[7],
    ]);
    Ok((number, rest))
}

/// `n` bytes.
pub fn bytes_at(n: usize, bytes: &[u8]) -> Result<(&[u8], &[u8]), Bad>
    ensures exact { Gives (λ x. (x.0.now, x.1.now)) result (bytes_at n bytes.now) }
    ensures length { IfOk result (λ x. length x.0.now ≡ n) }
{
    if bytes.len() < n {
        return Err(Bad::Short);
    }
    Ok(bytes.split_at(n))
}

/// 32 bytes, as a digest or a tag.
pub fn array_at(bytes: &[u8]) -> Result<(&[u8; 32], &[u8]), Bad>
    ensures { Gives (λ x. (x.0.now, x.1.now)) result (bytes_at 32 bytes.now) }
{
    match bytes.split_first_chunk::<32>() {
        Some((front, rest)) => Ok((front, rest)),
        None => Err(Bad::Short),
    }
}

/// A byte from `low` to `high`, and `bad` where it is another.
#[tactic(auto, unfolding(crate::specs::Readers::ranged_at))]
pub fn ranged_u8(low: u8, high: u8, bad: Bad, bytes: &[u8]) -> Result<(u8, &[u8]), Bad>
    ensures exact { Gives (λ x. (x.0, x.1.now)) result (ranged_at w8 low high bad bytes.now) }
    ensures within { IfOk result (λ x. (low ≤ x.0) × (x.0 ≤ high)) }
{
    let (n, rest) = u8_at(bytes)?;
    if low <= n && n <= high {
        Ok((n, rest))
    } else {
        Err(bad)
    }
}

/// A number of two bytes from `low` to `high`, and `bad` where it is another.
#[tactic(auto, unfolding(crate::specs::Readers::ranged_at))]
pub fn ranged_u16(low: u16, high: u16, bad: Bad, bytes: &[u8]) -> Result<(u16, &[u8]), Bad>
    ensures exact { Gives (λ x. (x.0, x.1.now)) result (ranged_at w16 low high bad bytes.now) }
    ensures within { IfOk result (λ x. (low ≤ x.0) × (x.0 ≤ high)) }
{
    let (n, rest) = u16_at(bytes)?;
    if low <= n && n <= high {
        Ok((n, rest))
    } else {
        Err(bad)
    }
}

/// A number of four bytes from `low` to `high`, and `bad` where it is another.
#[tactic(auto, unfolding(crate::specs::Readers::ranged_at))]
pub fn ranged_u32(low: u32, high: u32, bad: Bad, bytes: &[u8]) -> Result<(u32, &[u8]), Bad>
    ensures exact { Gives (λ x. (x.0, x.1.now)) result (ranged_at w32 low high bad bytes.now) }
    ensures within { IfOk result (λ x. (low ≤ x.0) × (x.0 ≤ high)) }
{
    let (n, rest) = u32_at(bytes)?;
    if low <= n && n <= high {
        Ok((n, rest))
    } else {
        Err(bad)
    }
}

/// A number of eight bytes from `low` to `high`, and `bad` where it is another.
#[tactic(auto, unfolding(crate::specs::Readers::ranged_at))]
pub fn ranged_u64(low: u64, high: u64, bad: Bad, bytes: &[u8]) -> Result<(u64, &[u8]), Bad>
    ensures exact { Gives (λ x. (x.0, x.1.now)) result (ranged_at w64 low high bad bytes.now) }
    ensures within { IfOk result (λ x. (low ≤ x.0) × (x.0 ≤ high)) }
{
    let (n, rest) = u64_at(bytes)?;
    if low <= n && n <= high {
        Ok((n, rest))
    } else {
        Err(bad)
    }
}

/// Bytes behind their length, which is a byte from `low` to `high`.
#[tactic(auto, unfolding(crate::specs::Readers::text_at))]
pub fn text_u8(low: u8, high: u8, bytes: &[u8]) -> Result<(&[u8], &[u8]), Bad>
    ensures exact { Gives (λ x. (x.0.now, x.1.now)) result (text_at w8 low high bytes.now) }
    ensures within { IfOk result (λ x. (low ≤ length x.0.now) × (length x.0.now ≤ high)) }
{
    let (n, rest) = ranged_u8(low, high, Bad::BadLength, bytes)?;
    bytes_at(usize::from(n), rest)
}

/// Bytes behind their length, which is a number of two bytes from `low` to `high`.
#[tactic(auto, unfolding(crate::specs::Readers::text_at))]
pub fn text_u16(low: u16, high: u16, bytes: &[u8]) -> Result<(&[u8], &[u8]), Bad>
    ensures exact { Gives (λ x. (x.0.now, x.1.now)) result (text_at w16 low high bytes.now) }
    ensures within { IfOk result (λ x. (low ≤ length x.0.now) × (length x.0.now ≤ high)) }
{
    let (n, rest) = ranged_u16(low, high, Bad::BadLength, bytes)?;
    bytes_at(usize::from(n), rest)
}
