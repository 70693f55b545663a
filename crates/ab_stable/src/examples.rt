//! Small certificates and runs on which the definitions are tried.

ghost use Rattle.std.specs.Prelude.{◌≡◌, ℕ, None, Some, [], ◌∷◌, map, List};
ghost use Rattle.arrayvec.specs.ArrayVec.{ArrayVec};
ghost use Rattle.ab_hist.specs.declared.request.Request.{Request};
ghost use Rattle.ab_hist.specs.Digests.{NoCollision, digest_of, link};
ghost use Rattle.ab_svc.specs.Machines.{Reply};
ghost use Rattle.ab_hist.specs.Trimmed.{untrimmed};
ghost use Rattle.ab_trim.specs.Links.{AreApart};
ghost use Rattle.ab_trim.specs.Points.{IsAgreedList};
ghost use Rattle.ab_abs.specs.declared.seen.Seen.TheVariants.{Committed};
ghost use Rattle.ab_abs.specs.Acts.{histories, bases, requests, SlotsApart};
ghost use Rattle.ab_abs.specs.Examples.{first_of, two_instances};
ghost use Rattle.ab_abs.specs.Rules.{IsSound};
ghost use Rattle.ab_abs.specs.SmallActs.{small, small_acts};
ghost use Rattle.ab_stable.specs.AgreedLists.{agreed_list};
ghost use Rattle.ab_stable.specs.Certs.{AreKnown, AreTold, lists_of};
ghost use Rattle.ab_stable.specs.MarkedActs.{AreActsWithMarks, IsStable};
ghost use Rattle.ab_stable.specs.Forgotten.{IsForgotten};
ghost use Rattle.ab_stable.specs.SmallVotes.{small_bad, small_logs, small_votes, small_links};
ghost use Rattle.ab_stable.specs.SmallMarks.{checkpoint_of, is_checkpoint, marked_acts};

use ab_svc::Service;

/// What two of three lists agree on, none of which forgot anything: if they part after the first
/// request, that request; if two are equal, all of it.
pub fn two_whole_lists_agree()
    ensures on_first { (x y z : ArrayVec ℕ) → let a = first_of 0 x in let b = first_of 1 y in let c = first_of 2 z in let hs : List (List Request) = (a ∷ b ∷ []) ∷ (a ∷ c ∷ []) ∷ (a ∷ []) ∷ [] in
        NoCollision hs → agreed_list 2 (map untrimmed hs) ≡ Some (untrimmed (a ∷ [])) }
    ensures on_both { (x y : ArrayVec ℕ) → let a = first_of 0 x in let b = first_of 1 y in let hs : List (List Request) = (a ∷ b ∷ []) ∷ (a ∷ b ∷ []) ∷ [] ∷ [] in
        NoCollision hs → agreed_list 2 (map untrimmed hs) ≡ Some (untrimmed (a ∷ b ∷ [])) }
{}

/// The first of three lists forgot five requests, the second two, and the third none. If the first two
/// end at one point, two of the three agree on the second list; if the last two do, on the third. If no
/// two share a point, they agree on none.
pub fn two_trimmed_lists_agree()
    ensures on_late { (a b c e : Request) (d : List ℕ) → let end = link (link (link d a) b) c in
        agreed_list 2 (record { start = 5; digest = end; rest = [] } ∷ record { start = 2; digest = d; rest = a ∷ b ∷ c ∷ [] } ∷ untrimmed (e ∷ []) ∷ [])
        ≡ Some (record { start = 2; digest = d; rest = a ∷ b ∷ c ∷ [] }) }
    ensures on_early { (a b c : Request) (d : List ℕ) →
        agreed_list 2 (record { start = 5; digest = d; rest = [] } ∷ record { start = 2; digest = digest_of (a ∷ b ∷ []); rest = c ∷ [] } ∷ untrimmed (a ∷ b ∷ c ∷ []) ∷ [])
        ≡ Some (untrimmed (a ∷ b ∷ c ∷ [])) }
    ensures on_none { (a b : Request) (d e : List ℕ) →
        agreed_list 2 (record { start = 5; digest = d; rest = [] } ∷ record { start = 2; digest = e; rest = a ∷ [] } ∷ untrimmed (b ∷ []) ∷ []) ≡ None }
{}

/// Three lists meet what is asked of the lists of a certificate, and two of them agree. One correct
/// replica's list forgot a request, the other's forgot nothing, and the third is a faulty replica's.
pub fn small_certificates_are_known()
    ensures known { (a b c : Request) → AreKnown 1 small_bad (small_logs a b c) (small_votes a b c) }
    ensures told { (a b c : Request) → AreApart (small_links a b c) → AreTold (small_links a b c) small_bad (small_logs a b c) (small_votes a b c) }
    ensures agreed { (a b c : Request) → IsAgreedList 2 (lists_of (small_votes a b c)) (untrimmed (a ∷ b ∷ [])) }
{}

/// In the small run, each replica makes a CHECKPOINT of the one entry of its log, and replica 0 then
/// forgets it: the entry is stable.
pub fn small_checkpoints_are_there<S: Service>()
    ensures acts { (m : Request) → NoCollision (histories (small_acts S.machine m)) → SlotsApart (bases (small_acts S.machine m)) (requests (small_acts S.machine m))
        → AreActsWithMarks (IsSound S.machine small) small is_checkpoint checkpoint_of (marked_acts S.machine m) }
    ensures stable { (m : Request) → IsStable small checkpoint_of (marked_acts S.machine m) (m ∷ []) }
{}

/// In a run of two instances whose certificates of instance 1 have three requests, two of these may be
/// forgotten in instance 1, and one that was brought along in instance 2.
pub fn small_beginnings_are_forgotten()
    ensures settled { (a b c : Request) (d : List ℕ) (reply : Reply) → IsForgotten (two_instances a b c (Committed 2 0 a 3 d reply)) 1 (a ∷ b ∷ []) }
    ensures brought { (a b c : Request) (d : List ℕ) (reply : Reply) → IsForgotten (two_instances a b c (Committed 2 0 a 3 d reply)) 2 (a ∷ []) }
{}
