//! No disk.

use crate::disk::Disk;
use ab_io::{Failed, Refused};

/// No disk, for who keeps nothing. It has no bytes, and takes none.
#[derive(Drop)]
pub struct NoDisk;

impl Disk for NoDisk {
    ghost use Rattle.ab_disk.specs.Nothing.{nothing};

    ghost model = { nothing };

    fn open(&mut self, _name: &str) -> Result<(), Failed> {
        Ok(())
    }

    fn len(&mut self) -> Result<u64, Failed> {
        Ok(0)
    }

    fn read(&mut self, _at: u64, _buf: &mut [u8]) -> Result<usize, Failed> {
        Ok(0)
    }

    fn write(&mut self, _at: u64, _bytes: &[u8]) -> Result<(), Refused> {
        Err(Refused::OutOfMemory)
    }

    fn sync(&mut self) -> Result<(), Failed> {
        Ok(())
    }

    ghost seen_is_left = { λ d bytes is. tt };

    ghost counts_now = { λ d t c le may. tt };

    ghost only_now = { λ d c left. tt };
}
