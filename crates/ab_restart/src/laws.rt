//! What holds of a party's journal.

ghost use Rattle.std.specs.Prelude.{◌≡◌, ◌∷◌, ℕ, List, All, map};
ghost use Rattle.ab_loop.specs.Cores.{NodeEvent};
ghost use Rattle.ab_loop.specs.Past.{IsEvent, body_of};
ghost use Rattle.ab_restart.specs.Pasts.{IsPast, begun, first_body};

/// The events of a journal are those whose bodies stand in it behind the first one.
pub fn pasts_are_kept()
    ensures { (text : List ℕ) (bodies : List (List ℕ)) (events : List NodeEvent) → IsPast (first_body text) bodies events
        → (begun (first_body text) bodies ≡ first_body text ∷ map body_of events) × All IsEvent events }
{}
