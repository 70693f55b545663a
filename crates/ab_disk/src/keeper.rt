//! Who keeps bodies on a disk.

ghost use Rattle.std.specs.Prelude.{◌≡◌, ◌≤◌, ◌++◌, ◌∷◌, [], ℕ, List, length, IfSome, OnOk, OnErr, is_some};
ghost use Rattle.std.specs.declared.option.Option.{Option};
ghost use Rattle.std.specs.declared.option.Option.TheVariants.{None};
ghost use Rattle.std.specs.Option.{option_map};
ghost use Rattle.ab_disk.specs.Disks.{LeavesOnly};
ghost use Rattle.ab_disk.specs.Keeping.{HasKeepCause, KeptOrMore, ListedOrMore};

use crate::disk::Disk;
use std::alloc::Global;
use thiserror::Error;

/// Why a body may not be kept.
#[derive(Clone, Copy, Debug, PartialEq, Eq, Error)]
pub enum KeepFault {
    /// The disk's count of faults has risen.
    #[error("the disk failed")]
    Failed,
    #[error("out of memory")]
    OutOfMemory,
}

/// Keeps bodies on a disk, one after the other.
pub trait Keeper<D: Disk> {
    /// It may be asked with this disk: it was opened over it, and nothing was refused since.
    ghost ready: { Self → D → Type 0 };

    /// The bodies that keeper and disk have together, the oldest first, where they tell.
    ghost kept: { Self → D → Option (List (List ℕ)) };

    /// The list that a file gives.
    ghost list_of: { List ℕ → List (List ℕ) };

    /// Keeps a body of at most 4,194,305 bytes. After a refusal the list is as it was or has the body,
    /// and the keeper isn't asked again. A crash at any moment leaves one of these two lists, and after
    /// Ok the one with the body.
    fn keep(&mut self, alloc: Global, disk: &mut D, body: &[u8]) -> Result<(), KeepFault>
        requires body { length body.now ≤ 4194305 }
        requires ready { ready self.old disk.old }
        ensures ready { OnOk result (ready self.new disk.new) }
        ensures told { is_some (kept self.new disk.new) ≡ is_some (kept self.old disk.old) }
        ensures ok { OnOk result (kept self.new disk.new ≡ option_map (λ bodies. bodies ++ body.now ∷ []) (kept self.old disk.old)) }
        ensures err { OnErr result (KeptOrMore (kept self.old disk.old) body.now (kept self.new disk.new)) }
        ensures any_moment { IfSome (kept self.old disk.old) (λ bodies. LeavesOnly D.model disk.old disk.new (ListedOrMore list_of bodies body.now)) }
        ensures cause { HasKeepCause (D.model.faults disk.old) (D.model.faults disk.new) result };

    /// Where a keeper is ready, a crash leaves the list that it has.
    ghost kept_is_left: { (keeper : Self) (disk : D) (c : List ℕ) → ready keeper disk → D.model.may_leave disk c → IfSome (kept keeper disk) (λ bodies. list_of c ≡ bodies) };
}

/// Keeps nothing, and calls no disk.
#[derive(Drop)]
pub struct NoKeeper;

impl<D: Disk> Keeper<D> for NoKeeper {
    ghost use Rattle.std.specs.Prelude.{⊤};

    ghost ready = { λ k d. ⊤ };

    ghost kept = { λ k d. None };

    ghost list_of = { λ c. [] };

    ghost kept_is_left = { λ k d c ready may. tt };

    fn keep(&mut self, _alloc: Global, _disk: &mut D, _body: &[u8]) -> Result<(), KeepFault> {
        Ok(())
    }
}
