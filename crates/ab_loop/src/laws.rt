//! What holds of a node's run.

ghost use Rattle.std.specs.Prelude.{ℕ, List, [], Contains};
ghost use Rattle.arrayvec.specs.ArrayVec.{ArrayVec as Array};
ghost use Rattle.ab_loop.specs.declared.party_core.Commit.{Commit as TheCommit};
ghost use Rattle.ab_loop.specs.Settings.{NodeSetting as TheSetting};
ghost use Rattle.ab_loop.specs.Cores.{NodeEvent};
ghost use Rattle.ab_loop.specs.Edges.{replies_in};
ghost use Rattle.ab_loop.specs.Folds.{IsOfCore, commits_in, sends_in};
ghost use Rattle.ab_loop.specs.Lives.{Among, AreIdle, IsLife, StoppedRun, handed_by, kept_by, replied_by};
ghost use Rattle.ab_loop.specs.Nodes.{Turn, datagrams_in, first_step, parcels_of, run_after};

use crate::party_core::PartyCore;

/// Whatever its turns bring, a node is where its events, those of earlier runs first, lead its core. What
/// it sends are the datagrams of what the core sends in the new ones, which it keeps, and each commit that
/// it tells is one of the core's in them.
pub fn nodes_follow_their_core<K: PartyCore>()
    ensures core { (s : TheSetting) (reading : ℕ) (core : K) (past : List NodeEvent) (commands : List (Array ℕ)) (turns : List Turn)
        → IsOfCore K.rules s core past (run_after K.rules s (first_step K.rules s reading core past commands) turns) }
    ensures replies { (s : TheSetting) (reading : ℕ) (core : K) (past : List NodeEvent) (commands : List (Array ℕ)) (turns : List Turn)
        → let o = run_after K.rules s (first_step K.rules s reading core past commands) turns in
        (c : TheCommit) → Contains (replies_in o.effects) c → Contains (commits_in K.rules core o.events) c }
{}

/// However often a party is stopped, at any moment, and started again over what it kept: all datagrams
/// that ever left are, in their order and each at most once, among those of what one core sends in one
/// list of events, the kept ones, and so are its replies among what that core commits.
pub fn restarted_nodes_are_one<K: PartyCore>()
    ensures handed { (s : TheSetting) (core : K) (runs : List StoppedRun) → AreIdle K.rules core → IsLife K.rules s core [] runs
        → Among (handed_by runs) (datagrams_in (parcels_of s 0 (sends_in K.rules core (kept_by runs)))) }
    ensures replied { (s : TheSetting) (core : K) (runs : List StoppedRun) → AreIdle K.rules core → IsLife K.rules s core [] runs
        → Among (replied_by runs) (commits_in K.rules core (kept_by runs)) }
{}
