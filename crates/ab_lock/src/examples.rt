//! Acts that meet the premises.

ghost use Rattle.std.specs.Prelude.{◌≡◌, [], ◌∷◌};
ghost use Rattle.ab_lock.specs.Promises.{LockPremises, executed_of};
ghost use Rattle.ab_lock.specs.SmallActs.{digest, goes, may_stand, small_acts};

/// The premises are met by acts with a view change and an executed slot.
pub fn a_view_change_executes()
    ensures premises { LockPremises digest may_stand goes 1 0 [] small_acts }
    ensures executed { executed_of small_acts 0 ≡ 7 ∷ [] }
{}
