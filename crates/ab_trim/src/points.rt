//! What enough lists agree on.

ghost use Rattle.std.specs.Prelude.{◌≡◌, ℕ, ◌+◌, ◌<◌, ◌≤◌, List, length};
ghost use Rattle.ab_hist.specs.Trimmed.{Trimmed};
ghost use Rattle.ab_trim.specs.Points.{IsLastPoint, IsAgreedList, point_holders};

/// If q is above half the number of lists, they agree on one point, and on one list.
pub fn agreed_lists_are_one()
    ensures point { (q : ℕ) (ts : List Trimmed) (n k : ℕ) (d e : List ℕ) → length ts < q + q → IsLastPoint q ts n d → IsLastPoint q ts k e → (n ≡ k) × (d ≡ e) }
    ensures list { (q : ℕ) (ts : List Trimmed) (t u : Trimmed) → length ts < q + q → IsAgreedList q ts t → IsAgreedList q ts u → t ≡ u }
{}

/// There is such a list exactly if some point has q holders.
pub fn agreed_lists_are_there()
    ensures there { (q : ℕ) (ts : List Trimmed) (n : ℕ) (d : List ℕ) → 1 ≤ q → q ≤ point_holders ts n d → (t : Trimmed) × IsAgreedList q ts t }
    ensures only { (q : ℕ) (ts : List Trimmed) (t : Trimmed) → IsAgreedList q ts t → (n : ℕ) × (d : List ℕ) × (q ≤ point_holders ts n d) }
{}
