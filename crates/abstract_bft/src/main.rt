//! Runs a schedule from standard input or a storm of random events and writes what correct parties saw to standard
//! output; or writes the keys of a party; or serves a party over the loopback address; or starts itself once for each party of a
//! cluster, and gathers what became of them.
//!
//! It ends with 0 where the premises of the order properties held, 1 where one was broken, 2 for
//! words that are no command, 3 for a line that is refused, 4 for a fault of standard input, 5 for one
//! of standard output or standard error, 6 for one of the socket, 7 past a limit, 8 where a client's turns were used and
//! commands are unanswered, 9 where an allocation failed, 10 for a fault of a journal's file, 11 where a journal's entry is refused,
//! and 12 where a child of a cluster could not be started or waited for.
#![tactic(auto)]

ghost use Rattle.std.specs.Prelude.{◌≡◌, IfOk};
ghost use Rattle.ab_net.specs.UdpLinks.{unopened};

use ab_command::{refuse_memory, run};
use ab_net::{StdClock, UdpLink};
use ab_process::ProcSpawner;
use ab_standard::{FileDisk, StdSink, StdSource, program, texts, words};
use std::alloc::AllocError;
use std::io;
use std::process::ExitCode;

/// Datagrams over the loopback address, and the system's clock.
fn network(rt: &HostRuntime) -> Result<(UdpLink<HostRuntime>, StdClock<HostRuntime>), AllocError>
    ensures { IfOk result (λ both. (both.0 ≡ unopened) × (both.1 ≡ 0)) }
{
    let link = UdpLink::new(rt.clone()?);
    let clock = StdClock::new(rt.clone()?);
    Ok((link, clock))
}

/// The file of a journal, which isn't open.
fn disk(rt: &HostRuntime) -> Result<FileDisk, AllocError>
    ensures { IfOk result (λ d. d ≡ 0) }
{
    Ok(FileDisk::new(rt.clone()?))
}

/// Starts this program, by the word by which it was itself started.
fn spawner(rt: &HostRuntime) -> io::Result<ProcSpawner<HostRuntime>>
    ensures { IfOk result (λ s. s ≡ 0) }
{
    let name = match program(rt) {
        Ok(name) => name,
        // Then the words are no command, and nothing is started.
        Err(fault) if fault.kind() == io::ErrorKind::InvalidData => String::new(rt.alloc()),
        Err(fault) => return Err(fault),
    };
    Ok(ProcSpawner::new(rt.alloc(), rt.clone()?, name))
}

fn main(rt: HostRuntime) -> ExitCode {
    let alloc = rt.alloc();
    let mut err = StdSink::new(rt.stderr());
    let words = match words(&rt) {
        Ok(words) => words,
        // A command has no word that isn't UTF-8.
        Err(fault) if fault.kind() == io::ErrorKind::InvalidData => Vec::new(alloc),
        Err(_) => return ExitCode::from(refuse_memory(&mut err)),
    };
    let Ok(texts) = texts(alloc, words.as_slice()) else {
        return ExitCode::from(refuse_memory(&mut err));
    };
    let mut input = StdSource::new(rt.reader());
    let mut out = StdSink::new(rt.stdout());
    let Ok((mut link, mut clock)) = network(&rt) else {
        return ExitCode::from(refuse_memory(&mut err));
    };
    let Ok(mut disk) = disk(&rt) else {
        return ExitCode::from(refuse_memory(&mut err));
    };
    let Ok(mut spawner) = spawner(&rt) else {
        return ExitCode::from(refuse_memory(&mut err));
    };
    let status = run(
        alloc,
        texts.as_slice(),
        &mut input,
        &mut out,
        &mut err,
        &mut link,
        &mut clock,
        &mut disk,
        &mut spawner,
    );
    ExitCode::from(status)
}
