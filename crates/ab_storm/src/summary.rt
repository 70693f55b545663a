//! The summary of a storm.

ghost use Rattle.std.specs.Prelude.{◌≡◌, ◌<◌, ◌≤◌, ◌*◌, ◌+◌, ℕ, IfErr, IfOk, IsTrue, Some, length, slice_get, string_bytes};
ghost use Rattle.std.specs.List.{count_by};
ghost use Rattle.std.specs.Option.{option_map};
ghost use Rattle.ab_num.specs.Places.{kind_of};
ghost use Rattle.ab_num.specs.Limits.{most_events};
ghost use Rattle.ab_storm.specs.Drawn.{Draws};
ghost use Rattle.ab_storm.specs.Runs.{Storms, StormCause};
ghost use Rattle.ab_storm.specs.Summaries.{is_of, highest, sizes_text, counts_text, top_text, summary_of};

use crate::running::{StormFault, Stormed, storm};
use ab_abs::Protocol;
use ab_num::OutOfMemory;
use ab_svc::Service;
use ab_text::{Line, write_premise};
use ab_words::StormCommand;
use ab_world::{World, runs_are_told};
use std::alloc::{AllocError, Global};
use std::mem::drop;

/// The summary of a storm, and whether its premise line says `held`.
#[derive(Drop)]
pub struct Summed {
    pub summary: Vec<u8>,
    pub held: bool,
}

/// Lines that a summary counts.
#[derive(Clone, Copy, Debug, PartialEq, Eq)]
enum Counted {
    Commits,
    Certs,
    Inits,
    Spent,
}

impl Counted {
    fn has(self, line: &Line) -> bool
        ensures { result ≡ is_of self line.now }
    {
        match self {
            Counted::Commits => matches!(line, Line::Commit { .. }),
            Counted::Certs => matches!(line, Line::Cert { .. }),
            Counted::Inits => matches!(line, Line::Init { .. }),
            Counted::Spent => matches!(line, Line::Spent { .. }),
        }
    }

    fn count(self, lines: &[Line]) -> usize
        ensures { result ≡ count_by (is_of self) lines.now }
    {
        let mut count = 0;
        for line in lines {
            if self.has(line) {
                count += 1;
            }
        }
        count
    }
}

/// The instance in which a replica is.
fn instance_of<S: Service, P: Protocol<S>>(world: &World<S, P>, r: u8) -> u32
    requires { r < length world.now.cast.replicas }
    ensures { Some result ≡ option_map (λ s. s.rep.at) (slice_get world.now.cast.replicas r) }
{
    match world.instance_of(r) {
        Some(instance) => instance,
        None => unreachable!(),
    }
}

/// The highest instance in which a replica is.
fn top<S: Service, P: Protocol<S>>(world: &World<S, P>) -> u32
    requires { length world.now.cast.replicas ≡ 3 * world.now.cast.setup.cluster.f + 1 }
    ensures { result ≡ highest world.now.cast.replicas }
{
    let mut top = 0;
    for r in 0..world.setup().cluster().replicas() {
        top = top.max(instance_of(world, r));
    }
    top
}

/// The lines of how many events and packets there were.
fn sizes<S: Service, P: Protocol<S>>(
    alloc: Global,
    world: &World<S, P>,
) -> Result<String, AllocError>
    ensures { IfOk result (λ s. string_bytes s ≡ sizes_text world.now.cast.events (length world.now.packets)) }
{
    let events = world.events();
    let packets = world.packets();
    format!(in alloc; "events {events}\npackets {packets}\n")
}

/// The lines of how many there are of each kind.
fn counts(alloc: Global, lines: &[Line]) -> Result<String, AllocError>
    ensures { IfOk result (λ s. string_bytes s ≡ counts_text (count_by (is_of Counted.Commits) lines.now) (count_by (is_of Counted.Certs) lines.now) (count_by (is_of Counted.Inits) lines.now) (count_by (is_of Counted.Spent) lines.now)) }
{
    let commits = Counted::Commits.count(lines);
    let certs = Counted::Certs.count(lines);
    let inits = Counted::Inits.count(lines);
    let spent = Counted::Spent.count(lines);
    format!(in alloc; "commits {commits}\ncerts {certs}\ninits {inits}\nspent {spent}\n")
}

/// The line of the highest instance in which a replica is.
fn top_line<S: Service, P: Protocol<S>>(
    alloc: Global,
    world: &World<S, P>,
) -> Result<String, AllocError>
    requires { length world.now.cast.replicas ≡ 3 * world.now.cast.setup.cluster.f + 1 }
    ensures { IfOk result (λ s. string_bytes s ≡ top_text (highest world.now.cast.replicas)) }
{
    let top = top(world);
    format!(in alloc; "top {top}\n")
}

/// The summary of a run that the world is at the end of.
fn summary<S: Service, P: Protocol<S>>(
    alloc: Global,
    world: &World<S, P>,
) -> Result<Vec<u8>, OutOfMemory>
    requires { length world.now.cast.replicas ≡ 3 * world.now.cast.setup.cluster.f + 1 }
    ensures { IfOk result (λ v. v.items ≡ summary_of world.now) }
{
    let sizes = sizes(alloc, world)?;
    let counts = counts(alloc, world.seen())?;
    let top = top_line(alloc, world)?;
    let mut out = Vec::from_slice(alloc, sizes.as_bytes())?;
    out.extend_from_slice(counts.as_bytes())?;
    out.extend_from_slice(top.as_bytes())?;
    write_premise(alloc, &mut out, &world.premise())?;
    Ok(out)
}

/// What is told of a storm that was run.
fn tell<S: Service, P: Protocol<S>>(
    alloc: Global,
    asked: &StormCommand,
    stormed: &Stormed<S, P>,
) -> Result<Summed, OutOfMemory>
    requires served { (i : ℕ) → 1 ≤ i → IsTrue (P.serves (kind_of asked.now.plan i)) }
    requires drawn { Draws P.proto asked.now stormed.now.events stormed.now.world }
    requires replicas { length stormed.now.world.cast.replicas ≡ 3 * stormed.now.world.cast.setup.cluster.f + 1 }
    ensures { IfOk result (λ v. Storms S.machine P.proto asked.now v.summary.items v.held) }
{
    runs_are_told::<S, P>();
    let world = &stormed.world;
    let summary = summary(alloc, world)?;
    let held = world.premise().is_held();
    Ok(Summed { summary, held })
}

/// Runs the storm that is asked for, as `storm` does, and sums it up.
pub fn sum_up<S: Service, P: Protocol<S>>(
    alloc: Global,
    asked: &StormCommand,
) -> Result<Summed, StormFault>
    requires served { (i : ℕ) → 1 ≤ i → IsTrue (P.serves (kind_of asked.now.plan i)) }
    requires few { asked.now.events ≤ most_events }
    ensures ok { IfOk result (λ v. Storms S.machine P.proto asked.now v.summary.items v.held) }
    ensures cause { IfErr result (λ e. StormCause P.proto e asked.now) }
{
    let stormed = match storm::<S, P>(alloc, asked) {
        Ok(stormed) => stormed,
        Err(fault) => return Err(fault),
    };
    let told = tell(alloc, asked, &stormed);
    // By a call: in place the parts of each core would be taken apart.
    drop(stormed);
    match told {
        Ok(told) => Ok(told),
        Err(_) => Err(StormFault::OutOfMemory),
    }
}
