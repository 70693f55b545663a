//! A spawner over the system.

ghost use Rattle.std.specs.Prelude.{◌≡◌};
ghost use Rattle.ab_cluster.specs.Children.{IsOpen, Starts, Waits, job};
ghost use Rattle.ab_process.specs.Processes.{untold};

use crate::running::Running;
use ab_cluster::{Ended, Spawner};
use ab_io::Refused;
use std::alloc::{AllocError, Global};
use std::marker::Model;
use std::process::{Command, Processes, Stdio};

/// Starts one program, each time with other words and another input. A child's standard error is this program's.
#[derive(Drop)]
pub struct ProcSpawner<R: Processes + Drop> {
    alloc: Global,
    processes: R,
    program: String,
    children: Vec<Running<R::Started>>,
    faults: u64,
}

/// It is seen as the number of its faults.
impl<R: Processes + Drop> Model for ProcSpawner<R> {
    ghost use Rattle.std.specs.Prelude.{ℕ};

    ghost Value = { ℕ };

    ghost view = { λ s. s.faults };
}

impl<R: Processes + Drop> ProcSpawner<R> {
    /// Starts the program with this name, which is looked for as a shell does.
    pub fn new(alloc: Global, processes: R, program: String) -> Self
        ensures { result ≡ 0 }
    {
        ProcSpawner {
            alloc,
            processes,
            program,
            children: Vec::new(alloc),
            faults: 0,
        }
    }

    /// The program with these words. What it reads and what it writes goes through pipes.
    fn command(&self, words: &[&str]) -> Result<Command, AllocError> {
        let mut command = Command::new(self.alloc, self.program.as_str())?;
        for word in words {
            command.arg(*word)?;
        }
        command.stdin(Stdio::piped());
        command.stdout(Stdio::piped());
        command.stderr(Stdio::inherit());
        Ok(command)
    }

    /// Reads the outputs of all children to their ends, from the last child to the first. A child that writes more than a
    /// pipe holds waits until those that were started after it have ended, and the last one never waits.
    fn read_all(&mut self)
        ensures { self.new ≡ self.old }
    {
        let count = self.children.len();
        for i in 0..count {
            self.children[count - 1 - i].read();
        }
    }
}

impl<R: Processes + Drop> Spawner for ProcSpawner<R> {
    ghost use Rattle.ab_process.specs.Processes.{untold};

    ghost state = { untold };

    fn start(&mut self, words: &[&str], input: &[u8]) -> Result<u32, Refused>
        ensures { Starts (untold self.old) (untold self.new) result (job words.now input.now) }
    {
        let Ok(number) = u32::try_from(self.children.len()) else {
            return Err(Refused::OutOfMemory);
        };
        let Ok(mut command) = self.command(words) else {
            return Err(Refused::OutOfMemory);
        };
        // There is room before the child is there, so that none is lost.
        if self.children.reserve(1).is_err() {
            return Err(Refused::OutOfMemory);
        }
        let Ok(child) = command.spawn(&self.processes) else {
            self.faults = self.faults.saturating_add(1);
            return Err(Refused::Failed);
        };
        match self.children.push(Running::new(self.alloc, child, input)) {
            Ok(()) => Ok(number),
            Err(_) => unreachable!(),
        }
    }

    fn wait(&mut self, child: u32) -> Result<Ended, Refused>
        requires { IsOpen (untold self.old) child }
        ensures { Waits (untold self.old) (untold self.new) result child }
    {
        self.read_all();
        let alloc = self.alloc;
        let ended = match self.children.get_mut(child as usize) {
            Some(running) => running.end(alloc),
            None => Err(Refused::Failed),
        };
        if let Err(Refused::Failed) = ended {
            self.faults = self.faults.saturating_add(1);
        }
        ended
    }
}
