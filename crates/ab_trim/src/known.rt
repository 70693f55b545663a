//! Requests that a log still knows.

ghost use Rattle.std.specs.Prelude.{◌≡◌, ℕ, ◌≤◌, false, None, Some, List, Contains, length};
ghost use Rattle.ab_hist.specs.declared.request.Request.{Request};
ghost use Rattle.ab_hist.specs.Histories.{IsHistory, place_in, can_push};
ghost use Rattle.ab_hist.specs.Trimmed.{digest_at};
ghost use Rattle.ab_hist.specs.Known.{known_place, can_push_after};
ghost use Rattle.ab_trim.specs.Known.{Log, IsLogOf, place_by, can_push_by, forget_log};

/// A log finds the requests that are known at their places in the whole history, and may be given
/// those that may come next there; and a log that forgets more is still that of its history.
pub fn requests_are_known()
    ensures places { (m : Request) (l : Log) (h : List Request) → IsLogOf l h → IsHistory h → place_by l m ≡ known_place l.list.start h m }
    ensures pushes { (m : Request) (l : Log) (h : List Request) → IsLogOf l h → IsHistory h → can_push_by l m ≡ can_push_after l.list.start h m }
    ensures forgets { (n : ℕ) (l : Log) (h : List Request) → IsLogOf l h → l.list.start ≤ n → n ≤ length h → IsLogOf (forget_log n l) h }
{}

/// Two logs of one history answer alike: what the one knows that forgot more, the other knows at the same place, and both show
/// one digest.
pub fn logs_of_one_history_agree()
    ensures places { (m : Request) (n : ℕ) (l k : Log) (h : List Request) → IsLogOf l h → IsLogOf k h → IsHistory h → k.list.start ≤ l.list.start → place_by l m ≡ Some n → place_by k m ≡ Some n }
    ensures digests { (n : ℕ) (l k : Log) (h : List Request) → IsLogOf l h → IsLogOf k h → l.list.start ≤ n → k.list.start ≤ n → digest_at l.list n ≡ digest_at k.list n }
{}

/// A request that stands in a history and isn't known can't be logged again.
pub fn unknown_requests_stay_out()
    ensures { (m : Request) (n : ℕ) (h : List Request) → IsHistory h → Contains h m → known_place n h m ≡ None → can_push_after n h m ≡ false }
{}

/// If nothing is forgotten, each request of a history is known.
pub fn nothing_forgotten_all_known()
    ensures places { (h : List Request) (m : Request) → known_place 0 h m ≡ place_in h m }
    ensures pushes { (h : List Request) (m : Request) → can_push_after 0 h m ≡ can_push h m }
{}
