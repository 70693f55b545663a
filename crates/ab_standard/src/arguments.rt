//! The words that a program is called with.

ghost use Rattle.std.specs.Prelude.{◌≡◌, map, IfOk, string_bytes};

use std::alloc::{AllocError, Global};
use std::env::{self, Env};
use std::io;

/// The words after the program's name.
pub fn words(rt: &(impl Env + AllocGlobal)) -> io::Result<Vec<String>> {
    let mut all = Vec::new(rt.alloc());
    for word in env::args(rt)?.skip(1) {
        all.push(word)?;
    }
    Ok(all)
}

/// The word that the program was started by, or an empty one.
pub fn program(rt: &(impl Env + AllocGlobal)) -> io::Result<String> {
    match env::args(rt)?.next() {
        Some(word) => Ok(word),
        None => Ok(String::new(rt.alloc())),
    }
}

/// The words as texts.
pub fn texts<'a>(alloc: Global, words: &'a [String]) -> Result<Vec<&'a str>, AllocError>
    ensures { IfOk result (λ all. map (λ text. text.now) all.items ≡ map string_bytes words.now) }
{
    let mut all = Vec::new(alloc);
    for word in words {
        all.push(word.as_str())?;
    }
    Ok(all)
}
