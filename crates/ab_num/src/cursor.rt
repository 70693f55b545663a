//! A buffer that is read from its front.

ghost use Rattle.std.specs.Prelude.{◌≡◌, ◌≤◌, ◌↔◌, length, take, drop, slice_index, SomeIff, IsSome, IfSome, is_some, if◌then◌else◌};
ghost use Rattle.std.specs.Int.{w16, w32, w64, from_be_bytes};

use crate::bytes::{get_u16, get_u32, get_u64};
use std::marker::Model;

/// What is left of a buffer.
#[derive(Drop)]
pub struct Cur<'a> {
    rest: &'a [u8],
}

/// It is seen as the bytes that are left.
impl<'a> Model for Cur<'a> {
    ghost use Rattle.std.specs.Prelude.{List, ℕ};

    ghost Value = { List ℕ };

    ghost view = { λ c. c.rest.now };
}

impl<'a> Cur<'a> {
    /// A cursor at the front of the buffer.
    pub fn new(buf: &'a [u8]) -> Cur<'a>
        ensures { result ≡ buf.now }
    {
        Cur { rest: buf }
    }

    /// How many bytes are left.
    pub fn left(&self) -> usize
        ensures { result ≡ length self.now }
    {
        self.rest.len()
    }

    /// The next byte. None, and the cursor stays, where none is left.
    pub fn u8(&mut self) -> Option<u8>
        ensures value { SomeIff result (1 ≤ length self.old) (slice_index self.old 0) }
        ensures rest { self.new ≡ (if is_some result then drop 1 self.old else self.old) }
    {
        let (first, rest) = self.rest.split_first()?;
        self.rest = rest;
        Some(*first)
    }

    /// The number in the next two bytes. None, and the cursor stays, where fewer are left.
    pub fn u16(&mut self) -> Option<u16>
        ensures value { SomeIff result (2 ≤ length self.old) (from_be_bytes w16 (take 2 self.old)) }
        ensures rest { self.new ≡ (if is_some result then drop 2 self.old else self.old) }
    {
        let number = get_u16(self.rest, 0)?;
        self.rest = &self.rest[2..];
        Some(number)
    }

    /// The number in the next four bytes. None, and the cursor stays, where fewer are left.
    pub fn u32(&mut self) -> Option<u32>
        ensures value { SomeIff result (4 ≤ length self.old) (from_be_bytes w32 (take 4 self.old)) }
        ensures rest { self.new ≡ (if is_some result then drop 4 self.old else self.old) }
    {
        let number = get_u32(self.rest, 0)?;
        self.rest = &self.rest[4..];
        Some(number)
    }

    /// The number in the next eight bytes. None, and the cursor stays, where fewer are left.
    pub fn u64(&mut self) -> Option<u64>
        ensures value { SomeIff result (8 ≤ length self.old) (from_be_bytes w64 (take 8 self.old)) }
        ensures rest { self.new ≡ (if is_some result then drop 8 self.old else self.old) }
    {
        let number = get_u64(self.rest, 0)?;
        self.rest = &self.rest[8..];
        Some(number)
    }

    /// The next `n` bytes, borrowed from the buffer. None, and the cursor stays, where fewer are left.
    pub fn bytes(&mut self, n: usize) -> Option<&'a [u8]>
        ensures variant { IsSome result ↔ (n ≤ length self.old) }
        ensures value { IfSome result (λ bytes. bytes.now ≡ take n self.old) }
        ensures rest { self.new ≡ (if is_some result then drop n self.old else self.old) }
    {
        if self.rest.len() < n {
            return None;
        }
        let (front, rest) = self.rest.split_at(n);
        self.rest = rest;
        Some(front)
    }
}
