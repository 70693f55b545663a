//! What holds of the jobs of a cluster, and of their conclusion.

ghost use Rattle.std.specs.Prelude.{◌≡◌, ◌≤◌, ℕ, List, None, Ok, Some, IsTrue, false};
ghost use Rattle.ab_io.specs.Causes.{Rose};
ghost use Rattle.ab_num.specs.declared.party.Party.{Party as TheParty};
ghost use Rattle.ab_num.specs.Bounds.{IsInBounds};
ghost use Rattle.ab_keys.specs.Keys.{is_party};
ghost use Rattle.ab_text.specs.Heads.{most_built};
ghost use Rattle.ab_text.specs.Lines.{lines_of};
ghost use Rattle.ab_key_text.specs.Nodes.{AreCommandsOf, node_in};
ghost use Rattle.ab_words.specs.Commands.{ClusterCommand as TheCluster};
ghost use Rattle.ab_words.specs.declared.command.Command.{Command as TheCommand};
ghost use Rattle.ab_words.specs.Limits.{highest_base, longest_wait, most_turns};
ghost use Rattle.ab_words.specs.Language.{command_in};
ghost use Rattle.ab_cluster.specs.declared.report.Conclusion.{Conclusion as TheConclusion};
ghost use Rattle.ab_cluster.specs.Children.{Children as TheChildren, Job, SpawnerState, end_of};
ghost use Rattle.ab_cluster.specs.Gathering.{Gathers, Outcome};
ghost use Rattle.ab_cluster.specs.Jobs.{job_for, node_for, node_words};
ghost use Rattle.ab_cluster.specs.Reports.{conclusion_of};

/// A job is the node of its party: its words ask for a node as the cluster is asked for, and its input sets up that party with the
/// keys that the seed gives it, and with its commands.
pub fn jobs_are_nodes()
    ensures words { (k : TheCluster) → 1 ≤ k.base → k.base ≤ highest_base → 1 ≤ k.wait → k.wait ≤ longest_wait → 1 ≤ k.turns → k.turns ≤ most_turns
        → command_in (node_words k) ≡ Some (TheCommand.Node (record { base = k.base; wait = k.wait; turns = k.turns; trace = false; journal = None })) }
    ensures input { (k : TheCluster) (commands : List (List ℕ)) (p : TheParty) → IsInBounds k.f 1 → k.every ≤ most_built k.plan → IsTrue (is_party k.f 1 p) → AreCommandsOf (TheParty.Client 0) commands
        → node_in (lines_of (job_for k commands p).input) ≡ Ok (node_for k commands p) }
{}

/// It isn't known how each child ended only where the spawner has failed. Where it hasn't, and each child ends with status 0, all is
/// well.
pub fn conclusions_are_counted()
    ensures unknown { (jobs : List Job) (old new : SpawnerState) (all : List Outcome) → Gathers jobs old new all → conclusion_of all ≡ TheConclusion.Unknown → Rose old.faults new.faults }
    ensures well { (jobs : List Job) (old new : SpawnerState) (all : List Outcome) (children : TheChildren) → Gathers jobs old new all → old.told ≡ Some children
        → ((n : ℕ) → (end_of children.ends n).status ≡ 0) → (Rose old.faults new.faults → ⊥) → conclusion_of all ≡ TheConclusion.Well }
{}
