//! A spawner in memory.

ghost use Rattle.std.specs.Prelude.{◌≡◌, ◌<◌, ◌↔◌, [], length, map, IfOk, IsErrOf, IsTrue};
ghost use Rattle.ab_cluster.specs.Children.{IsOpen, Starts, Waits, end_of, ending, job, marked};
ghost use Rattle.ab_cluster.specs.Gathering.{job_of};
ghost use Rattle.ab_cluster.specs.Told.{child_of, spawner_of};
ghost use Rattle.ab_io.specs.Told.{fails_next, one_call};

use crate::calls::{Calls, one_more};
use crate::gathering::ChildJob;
use crate::spawner::{Ended, Spawner};
use ab_io::Refused;
use std::alloc::{AllocError, Global};
use std::marker::Model;

/// A child that was started.
#[derive(Drop)]
pub struct Started {
    /// What it was started with.
    pub job: ChildJob,
    /// Whether it was waited for.
    pub waited: bool,
}

/// Children in memory, whose ends are known. Stated calls fail.
#[derive(Drop)]
pub struct MemSpawner {
    alloc: Global,
    ends: Vec<Ended>,
    started: Vec<Started>,
    faults: u64,
    starts: Calls,
    waits: Calls,
}

/// It is seen as its children, with its faults and its calls.
impl Model for MemSpawner {
    ghost use Rattle.std.specs.Prelude.{map};
    ghost use Rattle.ab_cluster.specs.Children.{ending};
    ghost use Rattle.ab_cluster.specs.Told.{ToldSpawner, child_of};

    ghost Value = { ToldSpawner };

    ghost view = { λ s. record {
      children = record { started = map child_of s.started.items; ends = map ending s.ends.items };
      faults = s.faults;
      starts = s.starts;
      waits = s.waits;
    } };
}

/// The words and the input of a child, as its own.
fn job_from(alloc: Global, words: &[&str], input: &[u8]) -> Result<ChildJob, AllocError>
    ensures { IfOk result (λ j. job_of j ≡ job words.now input.now) }
{
    let mut own = Vec::new(alloc);
    for word in words {
        own.push(String::from_str(alloc, *word)?)?;
    }
    Ok(ChildJob {
        words: own,
        input: Vec::from_slice(alloc, input)?,
    })
}

/// Marks child `n` as waited for.
#[tactic(auto, using(crate::proofs::ChildLemmas::child_marked))]
fn mark(started: &mut [Started], n: usize)
    requires { n < length started.old }
    ensures { map child_of started.new ≡ marked (map child_of started.old) n }
{
    started[n].waited = true;
}

/// How child `n` ends.
fn end_at(alloc: Global, ends: &[Ended], n: usize) -> Result<Ended, AllocError>
    ensures { IfOk result (λ e. ending e ≡ end_of (map ending ends.now) n) }
{
    match ends.get(n) {
        Some(end) => Ok(Ended {
            status: end.status,
            out: Vec::from_slice(alloc, end.out.as_slice())?,
        }),
        None => Ok(Ended {
            status: 0,
            out: Vec::new(alloc),
        }),
    }
}

impl MemSpawner {
    /// A spawner whose child n ends as `ends` says at n, counted from 0; past that list with status 0, and it writes
    /// nothing. The calls of each kind with the numbers in its list fail, counted from 1.
    pub fn new(
        alloc: Global,
        ends: Vec<Ended>,
        fail_start: Vec<u64>,
        fail_wait: Vec<u64>,
    ) -> MemSpawner
        ensures children { result.children ≡ record { started = []; ends = map ending ends.items } }
        ensures faults { result.faults ≡ 0 }
        ensures starts { result.starts ≡ record { made = 0; fail = fail_start.items } }
        ensures waits { result.waits ≡ record { made = 0; fail = fail_wait.items } }
    {
        MemSpawner {
            alloc,
            ends,
            started: Vec::new(alloc),
            faults: 0,
            starts: Calls::new(fail_start),
            waits: Calls::new(fail_wait),
        }
    }

    /// The children that were started, in order.
    pub fn started(&self) -> &[Started]
        ensures { map child_of result.now ≡ self.now.children.started }
    {
        self.started.as_slice()
    }
}

impl Spawner for MemSpawner {
    ghost use Rattle.ab_cluster.specs.Told.{spawner_of};

    ghost state = { spawner_of };

    fn start(&mut self, words: &[&str], input: &[u8]) -> Result<u32, Refused>
        ensures starts { Starts (spawner_of self.old) (spawner_of self.new) result (job words.now input.now) }
        ensures fails { IsErrOf result Refused.Failed ↔ IsTrue (fails_next self.old.starts) }
        ensures calls { (self.new.starts ≡ one_call self.old.starts) × (self.new.waits ≡ self.old.waits) }
    {
        if self.starts.fails() {
            self.faults = one_more(self.faults);
            return Err(Refused::Failed);
        }
        let Ok(child) = u32::try_from(self.started.len()) else {
            return Err(Refused::OutOfMemory);
        };
        let Ok(job) = job_from(self.alloc, words, input) else {
            return Err(Refused::OutOfMemory);
        };
        match self.started.push(Started { job, waited: false }) {
            Ok(()) => Ok(child),
            Err(_) => Err(Refused::OutOfMemory),
        }
    }

    fn wait(&mut self, child: u32) -> Result<Ended, Refused>
        requires { IsOpen (spawner_of self.old) child }
        ensures waits { Waits (spawner_of self.old) (spawner_of self.new) result child }
        ensures fails { IsErrOf result Refused.Failed ↔ IsTrue (fails_next self.old.waits) }
        ensures calls { (self.new.starts ≡ self.old.starts) × (self.new.waits ≡ one_call self.old.waits) }
    {
        let n = child as usize;
        mark(self.started.as_mut_slice(), n);
        if self.waits.fails() {
            self.faults = one_more(self.faults);
            return Err(Refused::Failed);
        }
        match end_at(self.alloc, self.ends.as_slice(), n) {
            Ok(end) => Ok(end),
            Err(_) => Err(Refused::OutOfMemory),
        }
    }
}
