//! Certificates whose lists forgot their first entries.

ghost use Rattle.std.specs.Prelude.{◌≡◌, ℕ, ◌+◌, ◌*◌, ◌<◌, ◌≤◌, Bool, false, List, Contains, length, count_by, take};
ghost use mathlib.Core.List.{IsPrefix};
ghost use Rattle.ab_hist.specs.declared.request.Request.{Request};
ghost use Rattle.ab_hist.specs.Digests.{NoCollision, digest_of};
ghost use Rattle.ab_hist.specs.Trimmed.{Trimmed, StandsFor};
ghost use Rattle.ab_trim.specs.Links.{AreApart, IsAmong};
ghost use Rattle.ab_trim.specs.Points.{IsAgreedList, point_holders};
ghost use Rattle.ab_stable.specs.Certs.{Stated, lists_of, IsFair, AreKnown, AreTold, IsWholeCert, IsEqualWhole, HaveOneEnd};
ghost use Rattle.ab_stable.specs.Stable.{AreStable};

/// What f + 1 out of 2f + 1 lists agree on is the history of a certificate over whole lists. In it each
/// correct replica's list is its whole log.
pub fn certificates_are_whole()
    ensures { (f : ℕ) (bad : ℕ → Bool) (log : ℕ → List Request) (links : List (List ℕ × Request)) (votes : List Stated) (t : Trimmed)
        → length votes ≡ 2 * f + 1 → AreKnown f bad log votes → AreTold links bad log votes → IsAgreedList (f + 1) (lists_of votes) t
        → (h : List Request) × IsWholeCert f bad log links votes t h }
{}

/// f + 1 of such lists share a point, so they agree on a list.
pub fn enough_lists_share_a_point()
    ensures { (f : ℕ) (bad : ℕ → Bool) (log : ℕ → List Request) (links : List (List ℕ × Request)) (votes : List Stated)
        → length votes ≡ 2 * f + 1 → AreKnown f bad log votes → AreTold links bad log votes → (n : ℕ) × (d : List ℕ) × (f + 1 ≤ point_holders (lists_of votes) n d) }
{}

/// f + 1 lists with one end, and one digest there, stand for one history: each correct replica's log.
pub fn equal_lists_are_whole()
    ensures { (f : ℕ) (bad : ℕ → Bool) (log : ℕ → List Request) (links : List (List ℕ × Request)) (votes : List Stated) (t : Trimmed)
        → length votes ≡ f + 1 → count_by (λ v. bad v.by) votes ≤ f → ((v : Stated) → IsFair bad votes v → StandsFor v.list (log v.by)) → AreTold links bad log votes → HaveOneEnd votes t
        → (h : List Request) × IsEqualWhole bad log votes t h }
{}

/// If each correct replica's log has n entries or more, the first n of which have one digest, these
/// entries are the same in all these logs.
pub fn stable_fronts_are_common()
    ensures { (bad : ℕ → Bool) (log : ℕ → List Request) (links : List (List ℕ × Request)) (replicas n : ℕ) (d : List ℕ)
        → AreApart links → ((r : ℕ) → r < replicas → bad r ≡ false → IsAmong links (log r)) → AreStable bad log replicas n d
        → (r s : ℕ) → r < replicas → s < replicas → bad r ≡ false → bad s ≡ false → IsPrefix (take n (log r)) (log s) }
{}
