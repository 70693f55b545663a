//! What forgetting keeps of a run of many instances.

ghost use Rattle.std.specs.Prelude.{◌≡◌, ℕ, ◌<◌, ◌≤◌, Bool, List, Contains};
ghost use mathlib.Core.List.{IsPrefix};
ghost use Rattle.ab_num.specs.declared.cluster.Cluster.{Cluster as Group};
ghost use Rattle.ab_num.specs.declared.party.Party.{Party};
ghost use Rattle.ab_hist.specs.declared.request.Request.{Request};
ghost use Rattle.ab_msg.specs.declared.content.Content.{Content};
ghost use Rattle.ab_abs.specs.declared.seen.Seen.{Seen};
ghost use Rattle.ab_abs.specs.Acts.{Act, observations, setting};
ghost use Rattle.ab_abs.specs.Instances.{EachIsAbstract, EachInitHasCert};
ghost use Rattle.ab_abs.specs.Observations.{IsCertHistory, IsInitHistory, SameParts};
ghost use Rattle.ab_stable.specs.Forgotten.{IsForgotten, IsCommonBy, Forgot, AreReasoned};

use ab_svc::Service;

/// What begins each certificate history of an instance begins those of all later ones. So a beginning
/// that is common in one instance may be forgotten in all later ones.
pub fn common_beginnings_go_on<S: Service>()
    ensures { (seen : List Seen) (named : ℕ → ℕ → List ℕ → List Request) (faulty : List Party) (i j : ℕ) (front : List Request)
        → EachIsAbstract S.machine seen named faulty → EachInitHasCert seen → 1 ≤ i → i ≤ j
        → ((h : List Request) → IsCertHistory seen i h → IsPrefix front h) → (h : List Request) → IsCertHistory seen j h → IsPrefix front h }
{}

/// What may be forgotten in an instance begins each certificate history of it, and each history with
/// which a later one is entered.
pub fn forgotten_beginnings_are_common<S: Service>()
    ensures certified { (seen : List Seen) (named : ℕ → ℕ → List ℕ → List Request) (faulty : List Party) (i : ℕ) (front : List Request)
        → EachIsAbstract S.machine seen named faulty → EachInitHasCert seen → IsForgotten seen i front → (h : List Request) → IsCertHistory seen i h → IsPrefix front h }
    ensures entered { (seen : List Seen) (named : ℕ → ℕ → List ℕ → List Request) (faulty : List Party) (i j : ℕ) (front : List Request)
        → EachIsAbstract S.machine seen named faulty → EachInitHasCert seen → IsForgotten seen i front → i < j → (h : List Request) → IsInitHistory seen j h → IsPrefix front h }
{}

/// If replicas forget step by step, each with a reason, all that any of them ever forgot may be
/// forgotten where it was. Reasons stay as more becomes common.
pub fn reasoned_lists_are_forgotten()
    ensures each { (seen : List Seen) (common : List (ℕ × List Request)) (lists : List Forgot)
        → ((i : ℕ) (front : List Request) → Contains common (i, front) → (1 ≤ i) × ((h : List Request) → IsCertHistory seen i h → IsPrefix front h))
        → AreReasoned common lists → (v : Forgot) → Contains lists v → IsForgotten seen v.instance v.front }
    ensures later { (common more : List (ℕ × List Request)) (lists : List Forgot) → ((p : ℕ × List Request) → Contains common p → Contains more p) → AreReasoned common lists → AreReasoned more lists }
{}

/// If each reason is one of the acts of its instance, whose observations are those of the run, all that
/// any replica ever forgot may be forgotten where it was.
pub fn replicas_forget_what_is_common<S: Service>()
    ensures { (c : Group) (faulty : List Party) (is_mark : Content → Bool) (mark : ℕ → ℕ → ℕ → List ℕ → Content) (acts : ℕ → List Act) (seen : List Seen) (common : List (ℕ × List Request)) (lists : List Forgot)
        → ((i : ℕ) → SameParts i (observations (acts i)) seen) → ((i : ℕ) (front : List Request) → Contains common (i, front) → IsCommonBy S.machine (setting c faulty i) is_mark (mark i) (acts i) front)
        → AreReasoned common lists → (v : Forgot) → Contains lists v → IsForgotten seen v.instance v.front }
{}
