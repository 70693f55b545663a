//! Programs that are started.

ghost use Rattle.ab_cluster.specs.Children.{IsOpen, SpawnerState, Starts, Waits, job};

use ab_io::Refused;

/// How a child ended.
#[derive(Drop)]
pub struct Ended {
    /// The status that it ended with.
    pub status: u8,
    /// What it wrote to its standard output.
    pub out: Vec<u8>,
}

/// Starts children and waits for them.
pub trait Spawner {
    /// The started children, if they are told, and how often it has failed.
    ghost state: { Self → SpawnerState };

    /// Starts a child with these words and this input, and returns its number, counted from 0. After an `Err` none was
    /// started.
    fn start(&mut self, words: &[&str], input: &[u8]) -> Result<u32, Refused>
        ensures { Starts (state self.old) (state self.new) result (job words.now input.now) };

    /// Waits for a child to end, once. After an `Err` it isn't known how it ended.
    fn wait(&mut self, child: u32) -> Result<Ended, Refused>
        requires { IsOpen (state self.old) child }
        ensures { Waits (state self.old) (state self.new) result child };
}
