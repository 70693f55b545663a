//! What is kept of statements: the first content that is found about each subject, and the first other one.

ghost use Rattle.std.specs.Prelude.{◌≡◌, ◌+◌, ◌<◌, ◌≤◌, length, map, IfOk};
ghost use Rattle.std.specs.Str.{bytes_eq};
ghost use Rattle.ab_audit.specs.Kept.{accused_in, is_known, keep, keep_all, kept_in, note_in, notes_in};
ghost use Rattle.indexmap.specs.IndexMap.{spare};

use crate::accusation::Accusation;
use ab_num::OutOfMemory;
use indexmap::IndexMap;
use std::alloc::Global;

/// A content that is found: the number of its message, its bytes, and what it says in words.
#[derive(Drop)]
pub(crate) struct Found {
    pub(crate) number: u64,
    pub(crate) text: Vec<u8>,
    pub(crate) words: Vec<u8>,
}

impl Found {
    fn is(&self, text: &[u8]) -> bool
        ensures { result ≡ bytes_eq self.now.text.items text.now }
    {
        self.text.as_slice() == text
    }
}

/// Whether there is nothing to learn from these bytes: they came before, or their maker is accused by others.
pub(crate) fn is_known(
    first: &IndexMap<Accusation, Found>,
    others: &IndexMap<Accusation, Found>,
    about: &Accusation,
    text: &[u8],
) -> bool
    ensures { result ≡ is_known (kept_in first.now.entries others.now.entries) about.now text.now }
{
    if others.contains_key(about) {
        return true;
    }
    match first.get(about) {
        Some(known) => known.is(text),
        None => false,
    }
}

/// Keeps what was found, for which there is room.
pub(crate) fn keep(
    first: &mut IndexMap<Accusation, Found>,
    others: &mut IndexMap<Accusation, Found>,
    about: Accusation,
    found: Found,
)
    requires room { 0 < spare first.old }
    requires others_room { 0 < spare others.old }
    ensures kept { kept_in first.new.entries others.new.entries ≡ keep (kept_in first.old.entries others.old.entries) (note_in (about, found)) }
    ensures room { spare first.old ≤ spare first.new + 1 }
    ensures others_room { spare others.old ≤ spare others.new + 1 }
{
    if is_known(first, others, &about, found.text.as_slice()) {
        return;
    }
    if first.contains_key(&about) {
        match others.insert(about, found) {
            Ok(_) => {}
            Err(_) => unreachable!(),
        }
    } else {
        match first.insert(about, found) {
            Ok(_) => {}
            Err(_) => unreachable!(),
        }
    }
}

/// Keeps these, for which there is room.
pub(crate) fn keep_all(
    first: &mut IndexMap<Accusation, Found>,
    others: &mut IndexMap<Accusation, Found>,
    news: Vec<(Accusation, Found)>,
)
    requires room { length news.items ≤ spare first.old }
    requires others_room { length news.items ≤ spare others.old }
    ensures { kept_in first.new.entries others.new.entries ≡ keep_all (kept_in first.old.entries others.old.entries) (notes_in news.items) }
{
    'news: for note in news {
        keep(first, others, note.0, note.1);
    }
}

/// The subjects about which there are others, in their order.
pub(crate) fn subjects_of(
    alloc: Global,
    others: &IndexMap<Accusation, Found>,
) -> Result<Vec<Accusation>, OutOfMemory>
    ensures { IfOk result (λ v. v.items ≡ map (λ e. e.0) others.now.entries) }
{
    let mut subjects = Vec::with_capacity(alloc, others.len())?;
    'others: for subject in others.keys() {
        subjects.push(*subject)?;
    }
    Ok(subjects)
}
