//! Certificates and CHECKPOINTs among the acts of an instance, whose logs are whole.

ghost use Rattle.std.specs.Prelude.{◌≡◌, ℕ, ◌*◌, ◌+◌, ◌<◌, Bool, false, List, ◌∷◌, Contains, take};
ghost use mathlib.Core.List.{IsPrefix};
ghost use Rattle.ab_num.specs.declared.party.Party.{Party};
ghost use Rattle.ab_hist.specs.declared.request.Request.{Request};
ghost use Rattle.ab_msg.specs.declared.content.Content.{Content};
ghost use Rattle.ab_hist.specs.Trimmed.{Trimmed};
ghost use Rattle.ab_abs.specs.declared.seen.Seen.TheVariants.{Cert};
ghost use Rattle.ab_abs.specs.Backing.{IsBacked, IsCorrect, IsStopped};
ghost use Rattle.ab_abs.specs.Acts.{Setting, Act, Premises, observations, state_of, log_of, named_in};
ghost use Rattle.ab_abs.specs.Instances.{IsAbstract};
ghost use Rattle.ab_abs.specs.Rules.{IsSound, IsValidCert};
ghost use Rattle.ab_abs.specs.TailRules.{IsTailSound};
ghost use Rattle.ab_stable.specs.Certs.{Stated, AreTold, IsWholeCert};
ghost use Rattle.ab_stable.specs.CertActs.{IsTrimmedCert, MeetsForgetting, faulty_in, whole_claims};
ghost use Rattle.ab_stable.specs.Leaving.{Leaves};
ghost use Rattle.ab_stable.specs.MarkedActs.{AreActsWithMarks, AreAllThere, BeginsAll, IsStable};

use ab_svc::Service;

/// A certificate over lists that forgot is a valid one over whole lists, as acts hold it: with the
/// whole log of each correct replica as its list.
pub fn trimmed_certificates_are_valid()
    ensures { (x : Setting) (log : ℕ → List Request) (links : List (List ℕ × Request)) (votes : List Stated) (t : Trimmed)
        → IsTrimmedCert x votes t → MeetsForgetting x log votes → AreTold links (faulty_in x) log votes
        → (h : List Request) × (whole : IsWholeCert x.cluster.f (faulty_in x) log links votes t h) × IsValidCert x (whole_claims x whole.list votes) h }
{}

/// CHECKPOINTs and forgetting change nothing for a protocol. Without these acts each replica is where
/// it is with them, the premises hold if they hold with them, and what the instance promises without
/// them it promises with them.
pub fn checkpoints_can_be_left_out<S: Service>()
    ensures states { (is_mark : Content → Bool) (acts bare : List Act) (r : ℕ) → Leaves is_mark acts bare → state_of acts r ≡ state_of bare r }
    ensures premises { (is_mark : Content → Bool) (acts bare : List Act) (x : Setting) → Leaves is_mark acts bare → Premises x acts → Premises x bare }
    ensures promises { (is_mark : Content → Bool) (acts bare : List Act) (x : Setting) → Leaves is_mark acts bare → IsAbstract S.machine (observations bare) (named_in x bare) x.faulty x.i
        → IsAbstract S.machine (observations acts) (named_in x acts) x.faulty x.i }
{}

/// If each replica's CHECKPOINT of some first entries is there, these entries begin the log of each
/// correct replica, whatever is done later: in Quorum and ZLight, and in Chain.
pub fn stable_beginnings_stay<S: Service>()
    ensures by_all { (x : Setting) (is_mark : Content → Bool) (mark : ℕ → ℕ → List ℕ → Content) (acts : List Act) (n : ℕ) (d : List ℕ)
        → AreActsWithMarks (IsSound S.machine x) x is_mark mark acts → AreAllThere x mark acts n d → BeginsAll x acts n d }
    ensures in_chain { (x : Setting) (is_mark : Content → Bool) (mark : ℕ → ℕ → List ℕ → Content) (acts : List Act) (n : ℕ) (d : List ℕ)
        → AreActsWithMarks (IsTailSound S.machine x) x is_mark mark acts → AreAllThere x mark acts n d → BeginsAll x acts n d }
{}

/// What is stable stays so as acts are added.
pub fn stable_beginnings_are_kept<S: Service>()
    ensures by_all { (x : Setting) (is_mark : Content → Bool) (mark : ℕ → ℕ → List ℕ → Content) (a : Act) (acts : List Act) (front : List Request)
        → AreActsWithMarks (IsSound S.machine x) x is_mark mark (a ∷ acts) → IsStable x mark acts front → IsStable x mark (a ∷ acts) front }
    ensures in_chain { (x : Setting) (is_mark : Content → Bool) (mark : ℕ → ℕ → List ℕ → Content) (a : Act) (acts : List Act) (front : List Request)
        → AreActsWithMarks (IsTailSound S.machine x) x is_mark mark (a ∷ acts) → IsStable x mark acts front → IsStable x mark (a ∷ acts) front }
{}

/// What is stable begins each certificate history of the instance.
pub fn stable_beginnings_are_certified<S: Service>()
    ensures by_all { (x : Setting) (is_mark : Content → Bool) (mark : ℕ → ℕ → List ℕ → Content) (acts : List Act) (front : List Request)
        → AreActsWithMarks (IsSound S.machine x) x is_mark mark acts → IsStable x mark acts front → (p : Party) (h : List Request) → Contains (observations acts) (Cert x.i p h) → IsPrefix front h }
    ensures in_chain { (x : Setting) (is_mark : Content → Bool) (mark : ℕ → ℕ → List ℕ → Content) (acts : List Act) (front : List Request)
        → AreActsWithMarks (IsTailSound S.machine x) x is_mark mark acts → IsStable x mark acts front → (p : Party) (h : List Request) → Contains (observations acts) (Cert x.i p h) → IsPrefix front h }
{}

/// What begins the log of each correct replica that is stopped begins each certificate history of the
/// instance, whatever its protocol.
pub fn common_beginnings_are_certified<S: Service>()
    ensures { (x : Setting) (acts : List Act) (front : List Request) → IsBacked S.machine x acts → ((r : ℕ) → IsCorrect x r → IsStopped acts r → IsPrefix front (log_of acts r))
        → (p : Party) (h : List Request) → Contains (observations acts) (Cert x.i p h) → IsPrefix front h }
{}
