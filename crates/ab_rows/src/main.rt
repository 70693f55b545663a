//! Reads rows, each a mark and bytes in hexadecimal, and tells of each row whose bytes give another answer than its mark says:
//! - `0`: a message. It is also owned, and written again as the same bytes.
//! - `1` to `5`: no message, with this defect as the first.
//! - `m`: a message. Each of its proper prefixes is too short, one byte more trails, and with a first byte of 0 it has no code.
//! - `r`, `c` and `n`: the bytes are read 10,000 times, copied as often, or neither, for a script that takes the time.
#![tactic(auto)]

ghost use Rattle.ab_wire.specs.Views.{IsReceived};

use ab_num::OutOfMemory;
use ab_open::{Bad, MsgRef, read};
use ab_write::write;
use std::alloc::Global;
use std::io;

/// How often the bytes of a line are read or copied.
const TIMES: u32 = 10000;

fn digit(c: u8) -> u8 {
    match c {
        b'0'..=b'9' => c - b'0',
        b'a'..=b'f' => c - b'a' + 10,
        _ => 0,
    }
}

fn decoded(alloc: Global, hex: &[u8]) -> io::Result<Vec<u8>> {
    let mut out = Vec::new(alloc);
    let mut high = None;
    for c in hex {
        match high {
            None => high = Some(digit(*c)),
            Some(first) => {
                let byte = (first & 15) * 16 + (digit(*c) & 15);
                out.push(byte)?;
                high = None;
            }
        }
    }
    Ok(out)
}

/// Whether the message, owned and written, has these bytes.
fn is_written<'a>(alloc: Global, m: MsgRef<'a>, bytes: &[u8]) -> Result<bool, OutOfMemory>
    requires { IsReceived m }
{
    let owned = m.own(alloc)?;
    let copy = owned.copy(alloc)?;
    let written = write(alloc, &copy)?;
    Ok(written.as_slice() == bytes)
}

fn answer(alloc: Global, bytes: &[u8]) -> Result<u8, OutOfMemory> {
    match read(bytes) {
        Ok(m) => Ok(if is_written(alloc, m, bytes)? { 0 } else { 6 }),
        Err(Bad::Short) => Ok(1),
        Err(Bad::BadCode) => Ok(2),
        Err(Bad::BadLength) => Ok(3),
        Err(Bad::BadField) => Ok(4),
        Err(Bad::Trailing) => Ok(5),
    }
}

/// Whether the first `n` of the bytes end within a part.
fn is_short(bytes: &[u8], n: usize) -> bool {
    match bytes.get(..n) {
        Some(front) => matches!(read(front), Err(Bad::Short)),
        None => false,
    }
}

/// Whether the bytes are a message, each proper prefix of it is too short, one byte more trails, and 0 is no code.
fn is_whole(alloc: Global, mut bytes: Vec<u8>) -> Result<bool, OutOfMemory> {
    if answer(alloc, &bytes)? != 0 || !(0..bytes.len()).all(|n| is_short(&bytes, n)) {
        return Ok(false);
    }
    bytes.push(0)?;
    let has_trailing = matches!(read(&bytes), Err(Bad::Trailing));
    bytes.pop();
    if let Some(code) = bytes.first_mut() {
        *code = 0;
    }
    Ok(has_trailing && matches!(read(&bytes), Err(Bad::BadCode)))
}

/// Whether the bytes are a message each time that they are read.
fn is_read_often(bytes: &[u8]) -> bool {
    (0..TIMES).all(|_| read(bytes).is_ok())
}

/// Whether each copy of the bytes ends as they do.
fn is_copied_often(alloc: Global, bytes: &[u8]) -> Result<bool, OutOfMemory> {
    let mut is_same = true;
    for _ in 0..TIMES {
        let mut copy = Vec::with_capacity(alloc, bytes.len())?;
        copy.extend_from_slice(bytes)?;
        is_same = is_same && copy.last() == bytes.last();
    }
    Ok(is_same)
}

/// Whether a line's bytes do what its mark asks for.
fn is_as_told(alloc: Global, line: &[u8]) -> io::Result<bool> {
    match line {
        [] => Ok(true),
        [told, hex @ ..] => {
            let bytes = decoded(alloc, hex)?;
            match told {
                b'r' => Ok(is_read_often(bytes.as_slice())),
                b'c' => Ok(matches!(is_copied_often(alloc, bytes.as_slice()), Ok(true))),
                b'n' => Ok(true),
                b'm' => Ok(matches!(is_whole(alloc, bytes), Ok(true))),
                _ => Ok(
                    matches!(answer(alloc, bytes.as_slice()), Ok(found) if found == digit(*told)),
                ),
            }
        }
    }
}

fn main(rt: HostRuntime) -> io::Result<()> {
    let mut right = 0u32;
    let mut wrong = 0u32;
    for line in rt.lines(rt.alloc()) {
        let line = line?;
        if is_as_told(rt.alloc(), line.as_str().as_bytes())? {
            right = right.saturating_add(1);
        } else {
            wrong = wrong.saturating_add(1);
            println!(rt; "another answer: line {}", right.saturating_add(wrong))?;
        }
    }
    println!(rt; "{right} as told, {wrong} not")
}
