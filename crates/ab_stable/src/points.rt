//! What enough lists agree on: as computed, and if nothing is forgotten.

ghost use Rattle.std.specs.Prelude.{◌≡◌, ℕ, ◌+◌, ◌<◌, ◌≤◌, ◌↔◌, None, Some, List, length, map};
ghost use Rattle.ab_hist.specs.declared.request.Request.{Request};
ghost use Rattle.ab_hist.specs.Digests.{NoCollision};
ghost use Rattle.ab_hist.specs.Trimmed.{Trimmed, untrimmed};
ghost use Rattle.ab_trim.specs.Points.{IsAgreedList, point_holders};
ghost use Rattle.ab_abs.specs.Extraction.{IsExtract};
ghost use Rattle.ab_stable.specs.AgreedLists.{agreed_list};

/// If nothing is forgotten and no digests collide, the lists agree by points on the longest history
/// with which q of them begin.
pub fn whole_lists_agree_by_points()
    ensures there { (q : ℕ) (hs : List (List Request)) (h : List Request) → NoCollision hs → 1 ≤ q → IsExtract q hs h → IsAgreedList q (map untrimmed hs) (untrimmed h) }
    ensures back { (q : ℕ) (hs : List (List Request)) (t : Trimmed) → NoCollision hs → 1 ≤ q → IsAgreedList q (map untrimmed hs) t → (h : List Request) × (t ≡ untrimmed h) × IsExtract q hs h }
{}

/// What is computed is what the lists agree on; and if q is above half the number of lists, there is
/// no other such list. Nothing is computed exactly if no point has q holders.
pub fn agreed_lists_are_found()
    ensures agrees { (q : ℕ) (ts : List Trimmed) (t : Trimmed) → 1 ≤ q → agreed_list q ts ≡ Some t → IsAgreedList q ts t }
    ensures found { (q : ℕ) (ts : List Trimmed) (t : Trimmed) → length ts < q + q → IsAgreedList q ts t → agreed_list q ts ≡ Some t }
    ensures none { (q : ℕ) (ts : List Trimmed) → 1 ≤ q → (agreed_list q ts ≡ None ↔ ((n : ℕ) (d : List ℕ) → q ≤ point_holders ts n d → ⊥)) }
{}
