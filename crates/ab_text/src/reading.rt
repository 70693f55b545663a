//! Schedules, read.

ghost use Rattle.std.specs.Prelude.{◌≡◌, ℕ, List, Result, ◌+◌, ◌-◌, ◌<◌, ◌≤◌, ◌^◌, [], length, take, MatchResult, Ok, Err, IsTrue, ◌↔◌, codes};
ghost use Rattle.ab_text.specs.Lines.{lines_of};
ghost use Rattle.ab_text.specs.declared.fault.TextFault.{TextFault as TheFault};
ghost use Rattle.ab_text.specs.Heads.{Script, most_built};
ghost use Rattle.ab_text.specs.Settings.{set_up};
ghost use Rattle.ab_text.specs.Faults.{BeginsNone, BeginsSome, BeginsUnbuilt};
ghost use Rattle.ab_text.specs.Spelling.{IsBuilt, IsSpelled};
ghost use Rattle.ab_text.specs.Forms.{IsInForm};
ghost use Rattle.ab_text.specs.Schedules.{ReadsEvents, ReadsFaulty, ReadsText, FaultOf, script_of};

use crate::event_lines::event_of;
use crate::fault::TextFault;
use crate::faulty::next_faulty;
use crate::head::head_of;
use crate::head_lines::HeadLines;
use crate::items::Items;
use crate::lines::next_line;
use crate::schedule::{Head, Schedule};
use ab_num::Party;
use std::alloc::Global;

/// Whether this is the last line.
fn is_end(line: &[u8]) -> bool
    ensures { IsTrue result ↔ (line.now ≡ codes "end") }
{
    line == b"end".as_slice()
}

/// Whether events follow this line.
fn is_run(line: &[u8]) -> bool
    ensures { IsTrue result ↔ (line.now ≡ codes "run") }
{
    line == b"run".as_slice()
}

/// The schedule of this head, whose events begin in line `first`.
fn events_after(alloc: Global, head: Head, text: &[u8], first: u32) -> Result<Schedule, TextFault>
    requires { first + length text.now < 2 ^ 32 }
    ensures { MatchResult result
        (λ s. ReadsEvents first (script_of head []) (lines_of text.now) (Ok (script_of s.head s.events)))
        (λ e. FaultOf e (ReadsEvents first (script_of head []) (lines_of text.now))) }
{
    let mut events = Items::new(alloc);
    let mut rest = text;
    let mut n = first;
    while let Some((line, after)) = next_line(rest) {
        if is_end(line) {
            return match next_line(after) {
                None => Ok(Schedule { head, events }),
                Some(_) => Err(TextFault::BadLine(n + 1)),
            };
        }
        match event_of(alloc, line)? {
            None => return Err(TextFault::BadLine(n)),
            Some(event) => events.push(event)?,
        }
        rest = after;
        n += 1;
    }
    Err(TextFault::NoEnd(n))
}

/// The head of this setting and these faulty parties.
fn head_with(setting: HeadLines, faulty: Items<(Party, u8)>) -> Head
    ensures { script_of result [] ≡ set_up setting faulty }
{
    let seed = setting.seed;
    Head {
        cluster: setting.cluster,
        service: setting.service,
        lms: setting.lms,
        seed,
        faulty,
    }
}

/// The schedule of this setting, whose faulty parties begin in line `first`.
fn faulty_after(
    alloc: Global,
    setting: HeadLines,
    text: &[u8],
    first: u32,
) -> Result<Schedule, TextFault>
    requires { first + length text.now < 2 ^ 32 }
    ensures { MatchResult result
        (λ s. ReadsFaulty first (set_up setting []) (lines_of text.now) (Ok (script_of s.head s.events)))
        (λ e. FaultOf e (ReadsFaulty first (set_up setting []) (lines_of text.now))) }
{
    let mut faulty = Items::new(alloc);
    let mut rest = text;
    let mut n = first;
    while let Some((line, after)) = next_line(rest) {
        if is_run(line) {
            let head = head_with(setting, faulty);
            return events_after(alloc, head, after, n + 1);
        }
        match next_faulty(setting, faulty.as_slice(), line) {
            None => return Err(TextFault::BadLine(n)),
            Some((party, twins)) => faulty.push((party, twins))?,
        }
        rest = after;
        n += 1;
    }
    Err(TextFault::NoEnd(n))
}

/// The schedule that a text spells. A line that is out of form, missing or not built is the first one.
pub fn read_schedule(alloc: Global, text: &[u8]) -> Result<Schedule, TextFault>
    requires { length text.now < 2 ^ 31 }
    ensures { MatchResult result
        (λ s. ReadsText text.now (Ok (script_of s.head s.events)))
        (λ e. FaultOf e (ReadsText text.now)) }
{
    let (setting, rest) = head_of(text)?;
    faulty_after(alloc, setting, rest, setting.next)
}

/// What is read as a schedule is spelled so, and its checkpoints are built.
pub fn read_is_spelled()
    ensures spelled { (text : List ℕ) (s : Script) → ReadsText text (Ok s) → IsSpelled text s }
    ensures built { (text : List ℕ) (s : Script) → ReadsText text (Ok s) → IsBuilt s }
{}

/// What is read as a schedule has no checkpoints but those that are built, a seed of 32 bytes, faulty parties of the cluster, each
/// once with 1 to 4 twins, and events in form.
pub fn read_is_in_form()
    ensures { (text : List ℕ) (s : Script) → ReadsText text (Ok s) → IsInForm s }
{}

/// What is spelled so is read, if its checkpoints are built. If they aren't, that is what is wrong with it.
pub fn spelled_is_read()
    ensures built { (text : List ℕ) (s : Script) → IsSpelled text s → IsBuilt s → ReadsText text (Ok s) }
    ensures not_built { (text : List ℕ) (s : Script) → IsSpelled text s → most_built s.plan < s.every → ReadsText text (Err (TextFault.NotBuilt 7)) }
{}

/// A text gives one result.
pub fn one_reading()
    ensures { (text : List ℕ) (r q : Result Script TheFault) → ReadsText text r → ReadsText text q → r ≡ q }
{}

/// A fault names the first line that is out of form, missing or not built: the lines before it begin a schedule that is
/// built. With a line that is out of form they begin none. With one that isn't built they begin only schedules whose
/// checkpoints aren't built.
pub fn fault_is_first()
    ensures before_bad { (text : List ℕ) (n : ℕ) → ReadsText text (Err (TextFault.BadLine n))
        → BeginsSome (take (n - 1) (lines_of text)) }
    ensures bad { (text : List ℕ) (n : ℕ) → ReadsText text (Err (TextFault.BadLine n))
        → (1 ≤ n) × (n ≤ length (lines_of text)) × BeginsNone (take n (lines_of text)) }

    ensures before_no_end { (text : List ℕ) (n : ℕ) → ReadsText text (Err (TextFault.NoEnd n))
        → BeginsSome (take (n - 1) (lines_of text)) }
    ensures no_end { (text : List ℕ) (n : ℕ) → ReadsText text (Err (TextFault.NoEnd n))
        → (n ≡ length (lines_of text) + 1) × ((s : Script) → IsSpelled text s → ⊥) }

    ensures before_not_built { (text : List ℕ) (n : ℕ) → ReadsText text (Err (TextFault.NotBuilt n))
        → BeginsSome (take (n - 1) (lines_of text)) }
    ensures not_built { (text : List ℕ) (n : ℕ) → ReadsText text (Err (TextFault.NotBuilt n))
        → (1 ≤ n) × (n ≤ length (lines_of text)) × BeginsUnbuilt (take n (lines_of text)) }
{}
