//! What replicas that go from instance to instance log and abort with, over any lawful protocol.

ghost use Rattle.std.specs.Prelude.{◌≡◌, ℕ, ◌≤◌, true, Some, List, Contains};
ghost use mathlib.Core.List.{IsPrefix};
ghost use Rattle.ab_num.specs.declared.cluster.Cluster.{Cluster as Group};
ghost use Rattle.ab_num.specs.declared.party.Party.{Party};
ghost use Rattle.ab_num.specs.declared.party.Party.TheVariants.{Replica};
ghost use Rattle.ab_num.specs.Places.{kind_of};
ghost use Rattle.ab_hist.specs.declared.request.Request.{Request};
ghost use Rattle.ab_msg.specs.declared.content.Content.TheVariants.{Abort};
ghost use Rattle.ab_abs.specs.declared.seen.Seen.TheVariants.{Cert};
ghost use Rattle.ab_abs.specs.Acts.{State, WasMade, observations, state_of, log_of, setting};
ghost use Rattle.ab_abs.specs.Backing.{IsCorrect, IsStopped};
ghost use Rattle.ab_abs.specs.Deeds.{acts_in};
ghost use Rattle.ab_abs.specs.Ensembles.{Ensemble, Reached};
ghost use Rattle.ab_abs.specs.Observations.{IsInitHistory};
ghost use Rattle.ab_abs.specs.Promises.{MeetsPremises, ServesAll};
ghost use Rattle.ab_stable.specs.Offers.{makes_checkpoints};

use ab_abs::Protocol;
use ab_svc::Service;

/// The ABORT of a whole log that a correct replica made holds its log, and the replica is stopped,
/// whatever was done since.
pub fn aborts_are_logs<S: Service, P: Protocol<S>>()
    ensures { (c : Group) (faulty : List Party) (w : Ensemble P) → ServesAll P.serves c → Reached P.proto c faulty w
        → (i r : ℕ) (h : List Request) → IsCorrect (setting c faulty i) r → WasMade (acts_in i w.run) (Abort (Replica r) i h)
        → (h ≡ log_of (acts_in i w.run) r) × IsStopped (acts_in i w.run) r }
{}

/// Where replicas make CHECKPOINTs, the log of each correct one begins with an init history of the
/// instance.
pub fn logs_begin_with_inits<S: Service, P: Protocol<S>>()
    ensures { (c : Group) (faulty : List Party) (w : Ensemble P) → ServesAll P.serves c → Reached P.proto c faulty w
        → (i r : ℕ) (s : State) → 1 ≤ i → makes_checkpoints (kind_of c.plan i) ≡ true → IsCorrect (setting c faulty i) r → state_of (acts_in i w.run) r ≡ Some s
        → (init : List Request) × IsInitHistory (observations (acts_in i w.run)) i init × IsPrefix init s.log }
{}

/// What begins the log of each correct replica that is stopped in such an instance begins each
/// certificate history of it.
pub fn common_fronts_are_certified<S: Service, P: Protocol<S>>()
    ensures { (c : Group) (faulty : List Party) (w : Ensemble P) → ServesAll P.serves c → Reached P.proto c faulty w → MeetsPremises c faulty w.run
        → (i : ℕ) (front : List Request) → 1 ≤ i → makes_checkpoints (kind_of c.plan i) ≡ true
        → ((r : ℕ) → IsCorrect (setting c faulty i) r → IsStopped (acts_in i w.run) r → IsPrefix front (log_of (acts_in i w.run) r))
        → (p : Party) (h : List Request) → Contains (observations (acts_in i w.run)) (Cert i p h) → IsPrefix front h }
{}
