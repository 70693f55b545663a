//! One of two protocols, by the kind of the instance.

use ab_abs::{Entry, Protocol, StepFault};
use ab_hist::History;
use ab_msg::{Notary, Outs, Zcert};
use ab_num::{Cluster, Kind, OutOfMemory};
use ab_svc::Service;
use ab_wire::MsgRef;
use std::alloc::Global;

/// The first runs each instance whose kind it serves, and the second each other.
pub enum Choice<P, Q> {
    First(P),
    Second(Q),
}

// Written out, so that no crate above makes and proves it anew.
impl<P: Drop, Q: Drop> Drop for Choice<P, Q> {
    fn drop(self) {
        match self {
            Choice::First(_) => {}
            Choice::Second(_) => {}
        }
    }
}

impl<S: Service, P: Protocol<S>, Q: Protocol<S>> Protocol<S> for Choice<P, Q> {
    ghost use Rattle.ab_plans.specs.ChoiceRules.{either, choice, counted as counted_by, sound_by, stands_by};

    ghost proto = { choice P.proto Q.proto P.serves };

    ghost sound = { sound_by P.serves P.sound Q.sound };

    ghost stands = { stands_by P.serves P.stands Q.stands };

    ghost serves = { either P.serves Q.serves };

    ghost counted = { counted_by P.counted Q.counted };

    fn runs(kind: Kind) -> bool {
        P::runs(kind) || Q::runs(kind)
    }

    fn start(alloc: Global, c: &Cluster, i: u32, me: u8, e: &Entry) -> Result<Self, OutOfMemory> {
        if P::runs(c.kind(i)) {
            Ok(Choice::First(P::start(alloc, c, i, me, e)?))
        } else {
            Ok(Choice::Second(Q::start(alloc, c, i, me, e)?))
        }
    }

    fn on<N: Notary>(
        &mut self,
        alloc: Global,
        m: MsgRef<'_>,
        n: &mut N,
    ) -> Result<Outs, StepFault> {
        match self {
            Choice::First(p) => p.on(alloc, m, n),
            Choice::Second(q) => q.on(alloc, m, n),
        }
    }

    fn timeout<N: Notary>(&mut self, alloc: Global, n: &mut N) -> Result<Outs, StepFault> {
        match self {
            Choice::First(p) => p.timeout(alloc, n),
            Choice::Second(q) => q.timeout(alloc, n),
        }
    }

    fn stop(&mut self) {
        match self {
            Choice::First(p) => p.stop(),
            Choice::Second(q) => q.stop(),
        }
    }

    fn trim(&mut self, n: usize) {
        match self {
            Choice::First(p) => p.trim(n),
            Choice::Second(q) => q.trim(n),
        }
    }

    fn trimmed(&self) -> usize {
        match self {
            Choice::First(p) => p.trimmed(),
            Choice::Second(q) => q.trimmed(),
        }
    }

    fn may_panic(&self) -> bool {
        match self {
            Choice::First(p) => p.may_panic(),
            Choice::Second(q) => q.may_panic(),
        }
    }

    fn copy(&self, alloc: Global) -> Result<Self, OutOfMemory> {
        match self {
            Choice::First(p) => Ok(Choice::First(p.copy(alloc)?)),
            Choice::Second(q) => Ok(Choice::Second(q.copy(alloc)?)),
        }
    }

    fn log(&self) -> &History {
        match self {
            Choice::First(p) => p.log(),
            Choice::Second(q) => q.log(),
        }
    }

    fn stopped(&self) -> bool {
        match self {
            Choice::First(p) => p.stopped(),
            Choice::Second(q) => q.stopped(),
        }
    }

    fn first(&self) -> Option<&History> {
        match self {
            Choice::First(p) => p.first(),
            Choice::Second(q) => q.first(),
        }
    }

    fn zcert(&self) -> Option<&Zcert> {
        match self {
            Choice::First(p) => p.zcert(),
            Choice::Second(q) => q.zcert(),
        }
    }

    fn timer(&self) -> Option<u64> {
        match self {
            Choice::First(p) => p.timer(),
            Choice::Second(q) => q.timer(),
        }
    }

    ghost use Rattle.std.specs.Prelude.{◌≡◌};
    ghost use Rattle.ab_abs.specs.Acts.{observations, named_in};
    ghost use Rattle.ab_abs.specs.Instances.{IsAbstract};
    ghost use Rattle.ab_abs.specs.Observations.{observed_in};
    ghost use Rattle.ab_plans.specs.ChoiceLaws.{form_law, rule_law, stays_law, trim_law, nil_law, start_law, on_law, stop_law, others_law, act_law};

    ghost stands_stays = { stays_law S.machine P.proto Q.proto P.serves Q.serves P.sound Q.sound P.stands Q.stands P.stands_stays Q.stands_stays };

    ghost stands_trimmed = { trim_law S.machine P.proto Q.proto P.serves Q.serves P.sound Q.sound P.stands Q.stands P.stands_trimmed Q.stands_trimmed };

    ghost formed = { form_law P.proto Q.proto P.serves Q.serves P.formed Q.formed };

    ghost ruled = { rule_law P.proto Q.proto P.serves Q.serves S.machine P.ruled Q.ruled };

    ghost sound_nil = { λ x. nil_law S.machine P.proto Q.proto P.serves Q.serves P.sound Q.sound P.stands Q.stands x (P.sound_nil x) (Q.sound_nil x) };

    ghost lawful_start = { λ x acts me e. start_law S.machine P.proto Q.proto P.serves Q.serves P.sound Q.sound P.stands Q.stands x acts me e (P.lawful_start x acts me e) (Q.lawful_start x acts me e) };

    ghost lawful_on = { λ x acts. on_law S.machine P.proto Q.proto P.serves Q.serves P.sound Q.sound P.stands Q.stands x acts (P.lawful_on x acts) (Q.lawful_on x acts) };

    ghost lawful_stop = { λ x acts. stop_law S.machine P.proto Q.proto P.serves Q.serves P.sound Q.sound P.stands Q.stands x acts (P.lawful_stop x acts) (Q.lawful_stop x acts) };

    ghost lawful_others = { λ x acts a served correct is. others_law S.machine P.proto Q.proto P.serves Q.serves P.sound Q.sound P.stands Q.stands x acts a (λ s. P.lawful_others x acts a s correct is) (λ s. Q.lawful_others x acts a s correct is) served };

    ghost sound_abstract = { λ x acts served. act_law S.machine P.proto Q.proto P.serves Q.serves P.sound Q.sound P.stands Q.stands x acts (IsAbstract S.machine (observations acts) (named_in x acts) x.faulty x.i) (P.sound_abstract x acts) (Q.sound_abstract x acts) served };

    ghost sound_names = { λ x acts served sound a is s has. act_law S.machine P.proto Q.proto P.serves Q.serves P.sound Q.sound P.stands Q.stands x acts (observed_in s ≡ x.i) (λ t h. P.sound_names x acts t h a is s has) (λ t h. Q.sound_names x acts t h a is s has) served sound };
}
