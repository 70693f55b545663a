//! The lines of a node.

ghost use Rattle.std.specs.Prelude.{◌≡◌, ◌++◌, ◌∷◌, IfOk, OnOk, codes, string_bytes};
ghost use Rattle.ab_text.specs.Cores.{core_text};
ghost use Rattle.ab_loop.specs.Cores.{event_of};
ghost use Rattle.ab_loop.specs.Texts.{end_text, event_text, own_core, reply_front, reply_text};

use crate::party_core::{Commit, NodeEventRef};
use ab_num::{OutOfMemory, Party};
use ab_text::party_string;
use std::alloc::{AllocError, Global};

fn add(out: &mut Vec<u8>, text: &[u8]) -> Result<(), OutOfMemory>
    ensures { OnOk result (out.new.items ≡ out.old.items ++ text.now) }
{
    out.extend_from_slice(text)?;
    Ok(())
}

/// A word and the party's core.
fn front(alloc: Global, word: &str, me: Party) -> Result<Vec<u8>, OutOfMemory>
    ensures { IfOk result (λ v. v.items ≡ word.now ++ core_text (own_core me)) }
{
    let party = party_string(alloc, me)?;
    let mut out = Vec::new(alloc);
    add(&mut out, word.as_bytes())?;
    add(&mut out, party.as_bytes())?;
    Ok(out)
}

/// A word, the party's core and a text.
fn told(alloc: Global, word: &str, me: Party, text: &[u8]) -> Result<Vec<u8>, OutOfMemory>
    ensures { IfOk result (λ v. v.items ≡ (word.now ++ (core_text (own_core me) ++ 32 ∷ text.now)) ++ codes "\n") }
{
    let mut out = front(alloc, word, me)?;
    add(&mut out, b" ")?;
    add(&mut out, text)?;
    add(&mut out, b"\n")?;
    Ok(out)
}

/// An event as a line of a schedule.
#[tactic(auto, unfolding(crate::specs::Texts::event_text))]
pub(crate) fn event_line(
    alloc: Global,
    me: Party,
    input: &NodeEventRef<'_>,
) -> Result<Vec<u8>, OutOfMemory>
    ensures { IfOk result (λ v. v.items ≡ event_text me (event_of input.now)) }
{
    match input {
        NodeEventRef::Invoke(command) => told(alloc, "invoke ", me, command),
        NodeEventRef::Message(bytes) => {
            let digits = hex::encode(alloc, bytes)?;
            told(alloc, "inject ", me, digits.as_bytes())
        }
        NodeEventRef::Timeout => {
            let mut out = front(alloc, "timeout ", me)?;
            add(&mut out, b"\n")?;
            Ok(out)
        }
    }
}

fn reply_front(alloc: Global, stamp: u64, instance: u32, n: u16) -> Result<String, AllocError>
    ensures { IfOk result (λ s. string_bytes s ≡ reply_front stamp instance n) }
{
    format!(in alloc; "reply {stamp} {instance} {n} ")
}

/// A commit.
#[tactic(auto, unfolding(crate::specs::Texts::reply_text))]
pub(crate) fn reply_line(alloc: Global, commit: &Commit) -> Result<Vec<u8>, OutOfMemory>
    ensures { IfOk result (λ v. v.items ≡ reply_text commit.now) }
{
    let front = reply_front(alloc, commit.stamp, commit.instance, commit.n)?;
    let mut out = Vec::new(alloc);
    add(&mut out, front.as_bytes())?;
    add(&mut out, commit.reply.as_slice())?;
    add(&mut out, b"\n")?;
    Ok(out)
}

/// The numbers of a node that has ended.
#[tactic(auto, unfolding(crate::specs::Texts::end_text))]
pub(crate) fn end_line(
    alloc: Global,
    events: u64,
    sent: u64,
    lost: u64,
    spent: u64,
) -> Result<String, AllocError>
    ensures { IfOk result (λ s. string_bytes s ≡ end_text events sent lost spent) }
{
    format!(in alloc; "end {events} {sent} {lost} {spent}\n")
}
