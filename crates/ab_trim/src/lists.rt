//! What a list says of the history for which it stands.

ghost use Rattle.std.specs.Prelude.{◌≡◌, ℕ, ◌≤◌, ◌↔◌, Some, List, [], ◌∷◌, ◌++◌, Contains, length, take};
ghost use Rattle.ab_hist.specs.declared.request.Request.{Request};
ghost use Rattle.ab_hist.specs.Digests.{NoCollision, digest_of};
ghost use Rattle.ab_hist.specs.Trimmed.{Trimmed, StandsFor, Holds, forget, cut, push, whole_by, grounded, untrimmed, trim};
ghost use Rattle.ab_trim.specs.Links.{AreApart, IsAmong, links_of_all};

/// Of whole histories, the digests of different beginnings are different exactly if the results
/// of different links are, and none is that of the empty history.
pub fn links_are_histories()
    ensures { (hs : List (List Request)) → AreApart (links_of_all hs) ↔ NoCollision hs }
{}

/// A list goes on standing for its history when it forgets more, is cut, or gets one more entry; a
/// history by itself is a list that has forgotten nothing.
pub fn lists_stay()
    ensures whole { (h : List Request) → StandsFor (untrimmed h) h }
    ensures trimmed { (n : ℕ) (h : List Request) → n ≤ length h → StandsFor (trim n h) h }
    ensures forgets { (t : Trimmed) (h : List Request) (n : ℕ) → StandsFor t h → t.start ≤ n → n ≤ length h → StandsFor (forget n t) h }
    ensures cuts { (t : Trimmed) (h : List Request) (n : ℕ) → StandsFor t h → t.start ≤ n → StandsFor (cut n t) (take n h) }
    ensures pushes { (t : Trimmed) (h : List Request) (m : Request) → StandsFor t h → StandsFor (push t m) (h ++ m ∷ []) }
    ensures shows { (t : Trimmed) (h : List Request) (n : ℕ) (d : List ℕ) → StandsFor t h → t.start ≤ n → (Holds t n d ↔ ((n ≤ length h) × (digest_of (take n h) ≡ d))) }
{}

/// If no two different links have one result, a list stands for one history, which any history
/// with the forgotten beginning tells.
pub fn lists_stand_for_one_history()
    ensures one { (ls : List (List ℕ × Request)) (t : Trimmed) (h k : List Request) → AreApart ls → IsAmong ls h → IsAmong ls k → StandsFor t h → StandsFor t k → h ≡ k }
    ensures told { (ls : List (List ℕ × Request)) (t : Trimmed) (h k : List Request) → AreApart ls → IsAmong ls h → IsAmong ls k → StandsFor t h → digest_of (take t.start k) ≡ t.digest → whole_by k t ≡ h }
{}

/// What a replica grounds by its own list stands for the history of the offered one, and its own
/// whole history tells it. It forgets no more than one of the two did.
pub fn grounded_lists_are_whole()
    ensures { (ls : List (List ℕ × Request)) (own t b : Trimmed) (mine h : List Request) → AreApart ls → IsAmong ls mine → IsAmong ls h → StandsFor own mine → StandsFor t h
        → grounded own t ≡ Some b → StandsFor b h × (whole_by mine b ≡ h) × (own.start ≤ b.start) × (t.start ≤ b.start) }
{}
