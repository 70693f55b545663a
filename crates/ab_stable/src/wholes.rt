//! Whole logs, as acts and observations tell them, and the lists that replicas keep.

ghost use Rattle.std.specs.Prelude.{◌≡◌, ℕ, ◌<◌, false, None, List, take};
ghost use Rattle.ab_num.specs.declared.party.Party.{Party};
ghost use Rattle.ab_num.specs.declared.party.Party.TheVariants.{Replica};
ghost use Rattle.ab_hist.specs.declared.request.Request.{Request};
ghost use Rattle.ab_abs.specs.Acts.{State};
ghost use Rattle.ab_abs.specs.Faults.{is_faulty};
ghost use Rattle.ab_abs.specs.Observations.{history_at};
ghost use Rattle.ab_hist.specs.Trimmed.{Trimmed, StandsFor, untrimmed};
ghost use Rattle.ab_trim.specs.Links.{AreApart, IsAmong};
ghost use Rattle.ab_stable.specs.Stable.{HasFront};
ghost use Rattle.ab_stable.specs.Wholes.{Place, next_state, whole_of};

/// The number and the digest of what a list forgot name it, if some correct replica's log begins with
/// it. So they tell the whole; and a list that forgot nothing is the whole.
pub fn named_lists_are_whole()
    ensures named { (links : List (List ℕ × Request)) (faulty : List Party) (logs : ℕ → List Request) (replicas r : ℕ) (t : Trimmed) (h : List Request)
        → AreApart links → IsAmong links h → ((q : ℕ) → q < replicas → is_faulty faulty (Replica q) ≡ false → IsAmong links (logs q))
        → StandsFor t h → r < replicas → is_faulty faulty (Replica r) ≡ false → HasFront (logs r) t.start t.digest → whole_of (history_at faulty replicas logs) t ≡ h }
    ensures nothing { (faulty : List Party) (logs : ℕ → List Request) (replicas : ℕ) (h : List Request) → whole_of (history_at faulty replicas logs) (untrimmed h) ≡ h }
{}

/// If a replica has forgotten nothing, the list that it keeps is the log that acts tell.
pub fn whole_places_are_states()
    ensures { (old : State) (p : Place) → p.log.start ≡ 0 → p.first ≡ None → next_state old p ≡ record { entered = old.entered; base = take p.base p.log.rest; log = p.log.rest; stopped = p.stopped; first = None; zcert = p.zcert } }
{}
