//! What a certificate brings to a replica if lists in it forgot their first entries.

ghost use Rattle.std.specs.Prelude.{◌≡◌, ◌⊎◌, ℕ, ◌*◌, ◌+◌, ◌<◌, ◌≤◌, true, Some, List, [], All, Contains, length, take};
ghost use mathlib.Core.List.{IsPrefix};
ghost use Rattle.ab_hist.specs.declared.request.Request.{Request};
ghost use Rattle.ab_hist.specs.Digests.{NoCollision, digest_of};
ghost use Rattle.ab_hist.specs.Histories.{IsHistory};
ghost use Rattle.ab_hist.specs.Trimmed.{Trimmed, end_of, digest_at};
ghost use Rattle.ab_trim.specs.Points.{IsLastPoint};
ghost use Rattle.ab_abs.specs.Acts.{Setting};
ghost use Rattle.ab_abs.specs.Rules.{IsValidCert};
ghost use Rattle.ab_stable.specs.AgreedLists.{agreed_list};
ghost use Rattle.ab_stable.specs.Certs.{Stated, lists_of, IsFair};
ghost use Rattle.ab_stable.specs.CertActs.{MeetsForgetting, faulty_in, whole_claims};
ghost use Rattle.ab_stable.specs.Offers.{Based, are_enough, based_on_list, based_on_whole, whole_log};

/// The list on which enough lists agree ends at their last point.
pub fn agreed_lists_end_at_their_point()
    ensures { (q : ℕ) (ts : List Trimmed) (t : Trimmed) → 1 ≤ q → agreed_list q ts ≡ Some t → IsLastPoint q ts (end_of t) (digest_at t (end_of t)) }
{}

/// If the last point of the lists of a certificate is that of a history, this is the history of a valid
/// certificate over whole lists: each correct replica's is its log, and each faulty one's as `whole_log`
/// says.
pub fn offered_certificates_are_valid()
    ensures { (x : Setting) (log : ℕ → List Request) (votes : List Stated) (h : List Request) (hs : List (List Request))
        → are_enough x.cluster.f votes ≡ true → All (λ v. v.by < 3 * x.cluster.f + 1) votes → IsLastPoint (x.cluster.f + 1) (lists_of votes) (length h) (digest_of h)
        → MeetsForgetting x log votes → NoCollision hs → Contains hs h → ((v : Stated) → IsFair (faulty_in x) votes v → (log v.by ≡ []) ⊎ Contains hs (log v.by))
        → IsValidCert x (whole_claims x (whole_log (faulty_in x) log h) votes) h }
{}

/// Such a history begins the log of a correct replica that has forgotten at least as much as the list on
/// which the lists agree.
pub fn offered_histories_are_held()
    ensures { (x : Setting) (log : ℕ → List Request) (votes : List Stated) (h : List Request) (hs : List (List Request))
        → are_enough x.cluster.f votes ≡ true → All (λ v. v.by < 3 * x.cluster.f + 1) votes → IsLastPoint (x.cluster.f + 1) (lists_of votes) (length h) (digest_of h)
        → MeetsForgetting x log votes → NoCollision hs → Contains hs h → ((v : Stated) → IsFair (faulty_in x) votes v → (log v.by ≡ []) ⊎ Contains hs (log v.by))
        → (t : Trimmed) → agreed_list (x.cluster.f + 1) (lists_of votes) ≡ Some t → end_of t ≡ length h
        → (v : Stated) × IsFair (faulty_in x) votes v × IsPrefix h (log v.by) × (t.start ≤ v.list.start) }
{}

/// What a list brings to a replica ends at the list's point, and the own log shows what is trimmed of it;
/// and what a whole history brings is the history.
pub fn bases_are_offered()
    ensures list { (k : ℕ) (own : List Request) (t : Trimmed) (b : Based) → k ≤ length own → based_on_list k own (Some t) ≡ Some b
        → (length b.base ≡ end_of t) × (digest_of b.base ≡ digest_at t (end_of t)) × (k ≤ b.trimmed) × (b.trimmed ≤ length b.base) × ((b.trimmed ≡ k) ⊎ (b.trimmed ≡ t.start)) × (b.trimmed ≤ length own) × (take b.trimmed b.base ≡ take b.trimmed own) × IsHistory b.base }
    ensures whole { (k : ℕ) (own h : List Request) (b : Based) → based_on_whole k own (Some h) ≡ Some b → (b.base ≡ h) × (b.trimmed ≡ k) × (k ≤ length h) × (digest_of (take k h) ≡ digest_of (take k own)) }
    ensures plain { (own h : List Request) → based_on_whole 0 own (Some h) ≡ Some (record { base = h; trimmed = 0 }) }
{}
