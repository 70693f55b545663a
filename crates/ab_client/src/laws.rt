//! What ties clients and runs, and what their timers count.

ghost use Rattle.std.specs.Prelude.{◌≡◌, ℕ, ◌+◌, List};
ghost use Rattle.ab_run.specs.Setups.{RunSetup};
ghost use Rattle.ab_run.specs.Clients.{Cli, CliAction};
ghost use Rattle.ab_run.specs.Local.{Cue, cli_after, cli_local, cli_marks, cli_sends, moves_at};
ghost use Rattle.ab_client.specs.Clients.{Seat, after, marks, sends};
ghost use Rattle.ab_client.specs.Timers.{number_of, invocations, entries, passed_over, all_invocations, all_entries, all_passed};

/// What a client does is what a run over its cluster says of it, whoever is faulty there and whatever
/// is signed.
pub fn clients_act_by_their_cluster()
    ensures after { (k : RunSetup) (s : Seat) (cue : Cue) → k.cluster ≡ s.cluster → (after s cue).cli ≡ cli_after k s.me s.cli cue }
    ensures sends { (k : RunSetup) (s : Seat) (cue : Cue) → k.cluster ≡ s.cluster → sends s cue ≡ cli_sends k s.me s.cli cue }
    ensures marks { (k : RunSetup) (s : Seat) (cue : Cue) → k.cluster ≡ s.cluster → marks s cue ≡ cli_marks k s.me s.cli cue }
{}

/// The number of a client's timer counts its invocations and its entries. In a call it rises by those
/// of the call, and by the instances that an entry passes over, so that it stays exactly where the
/// client invokes and enters nothing. In all it is one more than there were, since a client begins in
/// instance 1.
pub fn timers_count()
    ensures call { (k : RunSetup) (c : ℕ) (s : Cli) (cue : Cue) → let moves = moves_at k c s cue in
        number_of (cli_after k c s cue) ≡ number_of s + invocations moves + entries moves + passed_over s moves }
    ensures still { (s : Cli) (moves : List CliAction) → entries moves ≡ 0 → passed_over s moves ≡ 0 }
    ensures total { (k : RunSetup) (c : ℕ) (cues : List Cue) → number_of (cli_local k c cues) ≡ all_invocations k c cues + all_entries k c cues + all_passed k c cues + 1 }
{}
