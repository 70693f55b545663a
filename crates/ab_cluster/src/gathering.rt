//! Children that are gathered.

ghost use Rattle.std.specs.Prelude.{◌≡◌, ◌⊎◌, ◌≤◌, ◌+◌, ◌-◌, ◌^◌, ◌++◌, min, [], false, is_none, map, length, take, replicate, IfOk, OnOk, OnErr, IfSome, string_bytes, if◌then◌else◌};
ghost use Rattle.std.specs.List.{count_by, range_with_len};
ghost use Rattle.std.specs.Option.{option_map};
ghost use Rattle.std.specs.Vec.{vec_capacity};
ghost use Rattle.ab_io.specs.Causes.{Rose};
ghost use Rattle.ab_cluster.specs.Children.{IsOpen, Starts, end_of, ending, with_mark};
ghost use Rattle.ab_cluster.specs.Gathering.{Gathers, GathersFront, found, job_of, not_started, outcome_of};
ghost use Rattle.ab_cluster.specs.Steps.{AreEndsOf, AreOpen, Closes, ends_in, with_opened};

use crate::spawner::{Ended, Spawner};
use ab_io::Refused;
use ab_num::OutOfMemory;
use std::alloc::{AllocError, Global};

/// A child to start: its words and its input.
#[derive(Drop)]
pub struct ChildJob {
    pub words: Vec<String>,
    pub input: Vec<u8>,
}

/// What became of a job.
#[derive(Drop)]
pub struct Gathered {
    /// Whether a child was started.
    pub started: bool,
    /// How it ended. None if none was started, or its wait failed.
    pub ended: Option<Ended>,
}

/// The words as texts.
fn texts<'a>(alloc: Global, words: &'a [String]) -> Result<Vec<&'a str>, AllocError>
    ensures { IfOk result (λ all. map (λ text. text.now) all.items ≡ map string_bytes words.now) }
{
    let mut all = Vec::new(alloc);
    for word in words {
        all.push(word.as_str())?;
    }
    Ok(all)
}

/// Starts a job.
fn start_one<W: Spawner>(alloc: Global, job: &ChildJob, w: &mut W) -> Result<u32, Refused>
    ensures { Starts (W.state w.old) (W.state w.new) result (job_of job.now) }
{
    let Ok(words) = texts(alloc, job.words.as_slice()) else {
        return Err(Refused::OutOfMemory);
    };
    w.start(words.as_slice(), job.input.as_slice())
}

/// Starts the jobs in order, each once, until one start fails, and keeps the number of each child.
fn start_all<W: Spawner>(
    alloc: Global,
    jobs: &[ChildJob],
    w: &mut W,
    children: &mut Vec<u32>,
) -> Result<(), OutOfMemory>
    requires empty { children.old.items ≡ [] }
    requires room { length jobs.now ≤ vec_capacity children.old }
    ensures front { length children.new.items ≤ length jobs.now }
    ensures told { (W.state w.new).told ≡ option_map (with_opened (map job_of (take (length children.new.items) jobs.now))) (W.state w.old).told }
    ensures numbers { IfSome (W.state w.old).told (λ c. children.new.items ≡ range_with_len (length c.started) (length children.new.items)) }
    ensures later { (W.state w.old).faults ≤ (W.state w.new).faults }
    ensures stopped { OnOk result ((length children.new.items ≡ length jobs.now) ⊎ Rose (W.state w.old).faults (W.state w.new).faults) }
{
    for job in jobs {
        match start_one(alloc, job, w) {
            Ok(child) => match children.push(child) {
                Ok(()) => {}
                Err(_) => unreachable!(),
            },
            Err(Refused::Failed) => return Ok(()),
            Err(Refused::OutOfMemory) => return Err(OutOfMemory),
        }
    }
    Ok(())
}

/// Waits for a child, and answers how it ended, if its wait didn't fail. If memory is wanting, it says so in `short`.
fn wait_one<W: Spawner>(w: &mut W, child: u32, short: &mut bool) -> Option<Ended>
    requires { IsOpen (W.state w.old) child }
    ensures told { (W.state w.new).told ≡ option_map (with_mark child) (W.state w.old).told }
    ensures right { IfSome (W.state w.old).told (λ c. IfSome (option_map ending result) (λ end. end ≡ end_of c.ends child)) }
    ensures later { (W.state w.old).faults ≤ (W.state w.new).faults }
    ensures before { short.new ≡ false → short.old ≡ false }
    ensures faults { short.new ≡ false → min ((W.state w.old).faults + (if is_none (option_map ending result) then 1 else 0)) (2 ^ 64 - 1) ≤ (W.state w.new).faults }
{
    match w.wait(child) {
        Ok(ended) => Some(ended),
        Err(Refused::Failed) => None,
        Err(Refused::OutOfMemory) => {
            *short = true;
            None
        }
    }
}

/// Waits once for each of the children, in order, whatever the others' waits answer.
fn wait_all<W: Spawner>(
    children: &[u32],
    w: &mut W,
    all: &mut Vec<Gathered>,
) -> Result<(), OutOfMemory>
    requires empty { all.old.items ≡ [] }
    requires room { length children.now ≤ vec_capacity all.old }
    requires these { AreOpen (W.state w.old).told children.now }
    ensures told { Closes (W.state w.old).told (W.state w.new).told children.now }
    ensures all { map outcome_of all.new.items ≡ map found (ends_in all.new.items) }
    ensures count { length all.new.items ≡ length children.now }
    ensures room { vec_capacity all.old ≤ vec_capacity all.new }
    ensures right { IfSome (W.state w.old).told (λ c. AreEndsOf c.ends children.now (ends_in all.new.items)) }
    ensures later { (W.state w.old).faults ≤ (W.state w.new).faults }
    ensures faults { OnOk result (min ((W.state w.old).faults + count_by is_none (ends_in all.new.items)) (2 ^ 64 - 1) ≤ (W.state w.new).faults) }
{
    let mut short = false;
    for child in children {
        let ended = wait_one(w, *child, &mut short);
        let gathered = Gathered {
            started: true,
            ended,
        };
        match all.push(gathered) {
            Ok(()) => {}
            Err(_) => unreachable!(),
        }
    }
    if short { Err(OutOfMemory) } else { Ok(()) }
}

/// Adds the jobs that weren't started, so that there are `count`.
fn add_rest(count: usize, all: &mut Vec<Gathered>)
    requires few { length all.old.items ≤ count }
    requires room { count ≤ vec_capacity all.old }
    ensures { map outcome_of all.new.items ≡ map outcome_of all.old.items ++ replicate (count - length all.old.items) not_started }
{
    for _ in all.len()..count {
        let gathered = Gathered {
            started: false,
            ended: None,
        };
        match all.push(gathered) {
            Ok(()) => {}
            Err(_) => unreachable!(),
        }
    }
}

/// Starts a child for each job in order, each once, until one start fails. Then it waits once for each child that was
/// started, in order, whatever the others' waits answer. After want of memory in a start or a wait no further child is
/// started, and the started ones are still waited for.
pub fn gather<W: Spawner>(
    alloc: Global,
    jobs: &[ChildJob],
    w: &mut W,
) -> Result<Vec<Gathered>, OutOfMemory>
    ensures ok { IfOk result (λ all. Gathers (map job_of jobs.now) (W.state w.old) (W.state w.new) (map outcome_of all.items)) }
    ensures count { IfOk result (λ all. length all.items ≡ length jobs.now) }
    ensures err { OnErr result (GathersFront (map job_of jobs.now) (W.state w.old) (W.state w.new)) }
{
    let mut all = Vec::with_capacity(alloc, jobs.len())?;
    let mut children = Vec::with_capacity(alloc, jobs.len())?;
    let starts = start_all(alloc, jobs, w, &mut children);
    let waits = wait_all(children.as_slice(), w, &mut all);
    let Ok(()) = starts else {
        return Err(OutOfMemory);
    };
    let Ok(()) = waits else {
        return Err(OutOfMemory);
    };
    add_rest(jobs.len(), &mut all);
    Ok(all)
}
