//! What holds of the premises of every run.

ghost use Rattle.std.specs.Prelude.{◌≡◌, ◌≤◌, ◌↔◌, ℕ, Bool, List, None, Some, Option, map, count_by};
ghost use Rattle.ab_num.specs.declared.party.Party.{Party as TheParty};
ghost use Rattle.ab_num.specs.declared.plan.Kind.{Kind};
ghost use Rattle.ab_text.specs.declared.line.Premise.{Premise as TheLine};
ghost use Rattle.ab_msg.specs.Carried.{is_replica};
ghost use Rattle.ab_msg.specs.Contents.{spell_content};
ghost use Rattle.ab_abs.specs.Ensembles.{Proto};
ghost use Rattle.ab_abs.specs.FormLaws.{KeepsForm};
ghost use Rattle.ab_run.specs.Setups.{RunSetup};
ghost use Rattle.ab_run.specs.Premises.{IsHonestRun};
ghost use Rattle.ab_run.specs.Inputs.{Input, Opener, SpellsApart, events_in};
ghost use Rattle.ab_run.specs.Stages.{Forgery, IsForgedAt};
ghost use Rattle.ab_premise.specs.declared.breach.Collision.{Collision};
ghost use Rattle.ab_premise.specs.Collisions.{IsCollidedAt, IsFree, watched};
ghost use Rattle.ab_premise.specs.Spelled.{AreSpelledContents, IsSpelledRun};
ghost use Rattle.ab_premise.specs.Premises.{faulty_premise, first_premise, passing, IsPremise};

/// At most f replicas are declared faulty exactly where none passes f.
pub fn few_are_faulty()
    ensures { (f : ℕ) (faulty : List (TheParty × ℕ)) → (passing f faulty ≡ None) ↔ (count_by is_replica (map (λ e. e.0) faulty) ≤ f) }
{}

/// A program that looks at what correct parties check and at where their replicas come to finds no
/// collision exactly where the run has none, and finds one at the event and the party at which the run
/// has its first.
pub fn collisions_are_told<P>()
    ensures free { (k : RunSetup) (proto : Proto P) (serves : Kind → Bool) (opens : Opener) (inputs : List Input)
        → KeepsForm proto serves
        → ((watched k proto opens inputs).collided ≡ None) ↔ IsFree k proto (events_in opens inputs) }
    ensures earliest { (k : RunSetup) (proto : Proto P) (serves : Kind → Bool) (opens : Opener) (inputs : List Input) (c : Collision)
        → KeepsForm proto serves
        → ((watched k proto opens inputs).collided ≡ Some c) ↔ IsCollidedAt k proto opens inputs c.event c.party }
{}

/// The premise line that a program tells is that of the run, where its first forgery and its first
/// collision are those of the run; and no other line is.
pub fn premise_is_told<P>()
    ensures { (k : RunSetup) (proto : Proto P) (opens : Opener) (faulty : List (TheParty × ℕ)) (inputs : List Input) (forged : Option Forgery) (collided : Option Collision)
        → ((forged ≡ None) ↔ IsHonestRun k proto (events_in opens inputs))
        → ((b : Forgery) → (forged ≡ Some b) ↔ IsForgedAt k proto opens inputs b.event b.maker)
        → ((collided ≡ None) ↔ IsFree k proto (events_in opens inputs))
        → ((c : Collision) → (collided ≡ Some c) ↔ IsCollidedAt k proto opens inputs c.event c.party)
        → (line : TheLine) → (faulty_premise (passing k.cluster.f faulty) (first_premise forged collided) ≡ line) ↔ IsPremise k proto opens faulty inputs line }
{}

/// In a run in which what comes is spelled, whatever a correct party made and whatever one checked
/// have bytes of their own, where contents of the grammar have.
pub fn spelled_runs_are_apart<P>()
    ensures { (k : RunSetup) (proto : Proto P) (serves : Kind → Bool) (opens : Opener) (inputs : List Input)
        → KeepsForm proto serves → IsSpelledRun k serves opens inputs → AreSpelledContents k.cluster.f
        → SpellsApart k proto spell_content (events_in opens inputs) }
{}
