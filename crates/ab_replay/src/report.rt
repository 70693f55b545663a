//! The report of a run.

ghost use Rattle.std.specs.Prelude.{◌≡◌, ◌<◌, ◌≤◌, ◌+◌, ◌*◌, ◌++◌, drop, IfOk, IfSome, OnOk, flat_map, length, slice_get};
ghost use Rattle.ab_text.specs.Reports.{line_text, log_text};
ghost use Rattle.ab_replay.specs.Replays.{report_of, log_of, logs_from};

use ab_abs::Protocol;
use ab_num::{OutOfMemory, Party};
use ab_svc::Service;
use ab_text::{Line, write_end, write_log, write_premise, write_seen};
use ab_world::{World, entries};
use std::alloc::Global;

/// Adds the lines of what was seen.
fn write_lines(alloc: Global, out: &mut Vec<u8>, lines: &[Line]) -> Result<(), OutOfMemory>
    ensures { OnOk result (out.new.items ≡ out.old.items ++ flat_map line_text lines.now) }
{
    for line in lines {
        write_seen(alloc, out, line)?;
    }
    Ok(())
}

/// The entries behind the first `n`.
fn behind(entries: &[(u16, u64)], n: u16) -> &[(u16, u64)]
    requires { n ≤ length entries.now }
    ensures { result.now ≡ drop n entries.now }
{
    &entries[n as usize..]
}

/// Adds the line for the log of a replica.
fn write_log_of<S: Service, P: Protocol<S>>(
    alloc: Global,
    out: &mut Vec<u8>,
    world: &World<S, P>,
    r: u8,
) -> Result<(), OutOfMemory>
    requires { r < length world.now.cast.replicas }
    ensures { OnOk result (IfSome (slice_get world.now.cast.replicas r) (λ s. out.new.items ≡ out.old.items ++ log_text (log_of P.proto r s))) }
{
    let Some(instance) = world.instance_of(r) else {
        unreachable!()
    };
    let Some(log) = world.present_log(r) else {
        unreachable!()
    };
    let Some(start) = world.trimmed_of(r) else {
        unreachable!()
    };
    let entries = entries(alloc, log)?;
    let rest = behind(entries.as_slice(), start);
    write_log(alloc, out, r, instance, start, rest)
}

/// Adds a line for the log of each correct replica.
fn write_logs<S: Service, P: Protocol<S>>(
    alloc: Global,
    out: &mut Vec<u8>,
    world: &World<S, P>,
) -> Result<(), OutOfMemory>
    requires { length world.now.cast.replicas ≡ 3 * world.now.cast.setup.cluster.f + 1 }
    ensures { OnOk result (out.new.items ≡ out.old.items ++ flat_map log_text (logs_from P.proto world.now.cast.setup 0 world.now.cast.replicas)) }
{
    for r in 0..world.setup().cluster().replicas() {
        if !world.setup().is_faulty(Party::Replica(r)) {
            write_log_of(alloc, out, world, r)?;
        }
    }
    Ok(())
}

/// The report of a run that the world is at the end of.
pub(crate) fn report<S: Service, P: Protocol<S>>(
    alloc: Global,
    world: &World<S, P>,
) -> Result<Vec<u8>, OutOfMemory>
    requires { length world.now.cast.replicas ≡ 3 * world.now.cast.setup.cluster.f + 1 }
    ensures { IfOk result (λ v. v.items ≡ report_of P.proto world.now) }
{
    let mut out = Vec::new(alloc);
    write_lines(alloc, &mut out, world.seen())?;
    write_logs(alloc, &mut out, world)?;
    write_premise(alloc, &mut out, &world.premise())?;
    write_end(alloc, &mut out, world.events(), world.packets())?;
    Ok(out)
}
