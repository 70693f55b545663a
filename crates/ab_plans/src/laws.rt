//! What holds of a choice of protocols.

ghost use Rattle.std.specs.Prelude.{List};
ghost use Rattle.ab_num.specs.declared.party.Party.{Party};
ghost use Rattle.ab_num.specs.declared.cluster.Cluster.{Cluster};
ghost use Rattle.ab_abs.specs.Deeds.{seen_in, named_in_run};
ghost use Rattle.ab_abs.specs.Ensembles.{Ensemble, Reached};
ghost use Rattle.ab_abs.specs.Instances.{EachIsAbstract};
ghost use Rattle.ab_abs.specs.Order.{Ordered};
ghost use Rattle.ab_abs.specs.Promises.{MeetsPremises, ServesAll};
ghost use Rattle.ab_plans.specs.declared.choice.Choice.{Choice as Chosen};
ghost use Rattle.ab_plans.specs.ChoiceRules.{choice, either};

use crate::choice::Choice;
use ab_abs::{Protocol, any_protocol_is_ordered};
use ab_svc::Service;

/// Four lawful protocols, each for its own kinds, make one that is ordered: whatever events come,
/// and however differently their clients commit, by the votes of all, by the tail of a chain, on
/// f + 1 equal votes or by a certificate of signed answers.
pub fn four_protocols_are_ordered<
    S: Service,
    P: Protocol<S>,
    Q: Protocol<S>,
    R: Protocol<S>,
    T: Protocol<S>,
>()
    ensures ordered { (c : Cluster) (faulty : List Party) (w : Ensemble (Chosen P (Chosen Q (Chosen R T))))
        → ServesAll (either P.serves (either Q.serves (either R.serves T.serves))) c
        → Reached (choice P.proto (choice Q.proto (choice R.proto T.proto R.serves) Q.serves) P.serves) c faulty w
        → MeetsPremises c faulty w.run → Ordered S.machine (seen_in w.run) (named_in_run c faulty w.run) faulty }
    ensures instances { (c : Cluster) (faulty : List Party) (w : Ensemble (Chosen P (Chosen Q (Chosen R T))))
        → ServesAll (either P.serves (either Q.serves (either R.serves T.serves))) c
        → Reached (choice P.proto (choice Q.proto (choice R.proto T.proto R.serves) Q.serves) P.serves) c faulty w
        → MeetsPremises c faulty w.run → EachIsAbstract S.machine (seen_in w.run) (named_in_run c faulty w.run) faulty }
{
    any_protocol_is_ordered::<S, Choice<P, Choice<Q, Choice<R, T>>>>()
}
