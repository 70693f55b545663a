//! A disk.

ghost use Rattle.std.specs.Prelude.{◌≡◌, ◌<◌, ◌≤◌, ◌+◌, ◌^◌, ℕ, List, length, take, drop, is_some, IfOk, OnOk, OnErr, IsErrOf, IfSome};
ghost use Rattle.std.specs.declared.option.Option.{Option};
ghost use Rattle.std.specs.declared.option.Option.TheVariants.{Some};
ghost use Rattle.std.specs.Option.{option_map};
ghost use Rattle.ab_disk.specs.Causes.{HasCause, HasRefusalCause};
ghost use Rattle.ab_disk.specs.Disks.{DiskModel, Elapses, Follows, Only, Rests, TearsTold, Torn, written};

use ab_io::{Failed, Refused};

/// One file of bytes. A disk that tells is one file, whatever the name. It holds fewer than 2^62 bytes.
pub trait Disk {
    /// What is told of it.
    ghost model: { DiskModel Self };

    /// Opens the file of this name.
    fn open(&mut self, name: &str) -> Result<(), Failed>
        ensures rests { Rests model self.old self.new }
        ensures cause { HasCause (model.faults self.old) (model.faults self.new) result };

    /// How many bytes it holds.
    fn len(&mut self) -> Result<u64, Failed>
        ensures bound { IfOk result (λ n. n < 2 ^ 62) }
        ensures len { IfOk result (λ n. IfSome (model.seen self.old) (λ bytes. n ≡ length bytes)) }
        ensures rests { Rests model self.old self.new }
        ensures cause { HasCause (model.faults self.old) (model.faults self.new) result };

    /// Moves the bytes from `at` to the front of the buffer, as many as stand there and it has room
    /// for, and returns their number.
    fn read(&mut self, at: u64, buf: &mut [u8]) -> Result<usize, Failed>
        ensures bound { IfOk result (λ n. n ≤ length buf.new) }
        ensures bytes { IfOk result (λ n. IfSome (model.seen self.old) (λ bytes. take n buf.new ≡ take (length buf.new) (drop at bytes))) }
        ensures rests { Rests model self.old self.new }
        ensures cause { HasCause (model.faults self.old) (model.faults self.new) result };

    /// Writes over what stands there, and past the end. Until a sync that is answered Ok, a crash may
    /// leave any bytes in the range. After a refusal a read, too, may give any bytes there.
    fn write(&mut self, at: u64, bytes: &[u8]) -> Result<(), Refused>
        requires within { IfSome (model.seen self.old) (λ old. at ≤ length old) }
        ensures told { is_some (model.seen self.new) ≡ is_some (model.seen self.old) }
        ensures ok { OnOk result (model.seen self.new ≡ option_map (written at bytes.now) (model.seen self.old)) }
        ensures err { OnErr result (TearsTold at (length bytes.now) (model.seen self.old) (model.seen self.new)) }
        ensures room { OnOk result (at + length bytes.now < 2 ^ 62) }
        ensures crash { Follows (Torn at (length bytes.now)) (model.may_leave self.old) (model.may_leave self.new) }
        ensures time { Elapses model self.old self.new }
        ensures cause { HasRefusalCause (model.faults self.old) (model.faults self.new) result };

    /// After Ok a crash leaves what a read gives.
    fn sync(&mut self) -> Result<(), Failed>
        ensures durable { OnOk result (IfSome (model.seen self.old) (λ bytes. Only bytes (model.may_leave self.new))) }
        ensures rests { Rests model self.old self.new }
        ensures cause { HasCause (model.faults self.old) (model.faults self.new) result };

    /// What a read gives is one of the things that a crash may leave.
    ghost seen_is_left: { (disk : Self) (bytes : List ℕ) → model.seen disk ≡ Some bytes → model.may_leave disk bytes };

    /// This moment is one of those since an earlier one.
    ghost counts_now: { (disk : Self) (t : ℕ) (c : List ℕ) → t ≤ model.moment disk → model.may_leave disk c → model.left_since disk t c };

    /// Since this moment there is no other.
    ghost only_now: { (disk : Self) (c : List ℕ) → model.left_since disk (model.moment disk) c → model.may_leave disk c };
}
