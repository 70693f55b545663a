//! A disk over a file of the system, which doesn't tell what it holds.

ghost use Rattle.std.specs.Prelude.{◌≡◌, ◌≤◌, ◌<◌, ◌+◌, ◌^◌, length, IfOk, OnOk};
ghost use Rattle.ab_io.specs.Causes.{Rose};
ghost use Rattle.ab_standard.specs.FileDisks.{untold};

use ab_disk::Disk;
use ab_io::{Failed, Refused};
use std::fs::{File, OpenOptions};
use std::io::{self, ErrorKind};
use std::marker::Model;
use std::os::fd::AsRawFd;
use std::os::unix::fs::FileExt;

/// A disk holds fewer bytes.
const MOST: u64 = 1 << 62;

/// How often a read that is interrupted is tried again.
const TRIES: u64 = u64::MAX;

/// A file in the current folder, once it is open, and how often it has failed.
#[derive(Drop)]
pub struct FileDisk {
    system: HostRuntime,
    file: Option<File>,
    faults: u64,
}

/// It is seen as the number of its faults.
impl Model for FileDisk {
    ghost use Rattle.std.specs.Prelude.{ℕ};

    ghost Value = { ℕ };

    ghost view = { λ d. d.faults };
}

/// The file of this name, which is made if it isn't there, for this process alone. A link, a device or
/// a folder is refused.
fn opened(system: &HostRuntime, name: &str) -> io::Result<File> {
    let mut file = OpenOptions::new()
        .read(true)
        .write(true)
        .create(true)
        .open(system, name)?;
    // What is meant for a standard stream that was closed must not land in the file.
    if file.as_raw_fd() <= 2 {
        file = file.try_clone()?;
    }
    if !file.metadata()?.is_file() {
        return Err(ErrorKind::Unsupported.into());
    }
    if file.try_lock().is_err() {
        return Err(ErrorKind::WouldBlock.into());
    }
    // It may have been made just now, or by a process that stopped before this.
    File::open(system, ".")?.sync_all()?;
    Ok(file)
}

/// Its number of bytes.
fn measured(file: &File) -> io::Result<u64>
    ensures { IfOk result (λ n. n < 2 ^ 62) }
{
    let len = file.metadata()?.len();
    if len < MOST {
        Ok(len)
    } else {
        Err(ErrorKind::FileTooLarge.into())
    }
}

/// Moves bytes from `at` on to the front of the buffer, until it is full or the file ends.
fn moved(file: &File, at: u64, buf: &mut [u8]) -> io::Result<usize>
    ensures { IfOk result (λ n. n ≤ length buf.new) }
{
    let mut count = 0usize;
    'reads: for _ in 0..TRIES {
        if count >= buf.len() {
            break;
        }
        match file.read_at(&mut buf[count..], at.saturating_add(count as u64)) {
            Ok(0) => break,
            Ok(more) => count += more,
            Err(fault) if fault.kind() == ErrorKind::Interrupted => {}
            Err(fault) => return Err(fault),
        }
    }
    Ok(count)
}

/// Writes all bytes from `at` on.
fn put(file: &File, at: u64, bytes: &[u8]) -> io::Result<()>
    ensures { OnOk result (at + length bytes.now < 2 ^ 62) }
{
    let size = bytes.len() as u64;
    if at >= MOST || size >= MOST - at {
        return Err(ErrorKind::FileTooLarge.into());
    }
    file.write_all_at(bytes, at)
}

impl FileDisk {
    /// A disk that isn't open.
    pub fn new(system: HostRuntime) -> FileDisk
        ensures { result ≡ 0 }
    {
        FileDisk {
            system,
            file: None,
            faults: 0,
        }
    }

    /// Counts a fault.
    fn fail(&mut self) -> Failed
        ensures later { self.old ≤ self.new }
        ensures rose { Rose self.old self.new }
    {
        self.faults = self.faults.saturating_add(1);
        Failed
    }
}

impl Disk for FileDisk {
    ghost model = { untold };

    ghost seen_is_left = { λ disk bytes is. tt };

    ghost counts_now = { λ disk t c le may. tt };

    ghost only_now = { λ disk c left. tt };

    /// A file that another process has open so is refused.
    fn open(&mut self, name: &str) -> Result<(), Failed> {
        self.file = None;
        match opened(&self.system, name) {
            Ok(file) => {
                self.file = Some(file);
                Ok(())
            }
            Err(_) => Err(self.fail()),
        }
    }

    fn len(&mut self) -> Result<u64, Failed> {
        if let Some(file) = &self.file {
            if let Ok(len) = measured(file) {
                return Ok(len);
            }
        }
        Err(self.fail())
    }

    fn read(&mut self, at: u64, buf: &mut [u8]) -> Result<usize, Failed> {
        if let Some(file) = &self.file {
            if let Ok(count) = moved(file, at, buf) {
                return Ok(count);
            }
        }
        Err(self.fail())
    }

    fn write(&mut self, at: u64, bytes: &[u8]) -> Result<(), Refused> {
        if let Some(file) = &self.file {
            if put(file, at, bytes).is_ok() {
                return Ok(());
            }
        }
        self.fail();
        Err(Refused::Failed)
    }

    fn sync(&mut self) -> Result<(), Failed> {
        if let Some(file) = &self.file {
            if file.sync_all().is_ok() {
                return Ok(());
            }
        }
        Err(self.fail())
    }
}
