//! A replica that takes no request.

use ab_abs::{Entry, Protocol, StepFault};
use ab_hist::History;
use ab_msg::{Notary, Outs, Zcert};
use ab_num::{Cluster, Kind, OutOfMemory};
use ab_svc::Service;
use ab_wire::MsgRef;
use std::alloc::Global;
use std::marker::{Model, PhantomData};

/// It is stopped from its start, and logs its base alone.
#[derive(Drop)]
pub struct Null<S: Service> {
    instance: u32,
    me: u8,
    log: History,
    trimmed: usize,
    of: PhantomData<S>,
}

impl<S: Service> Model for Null<S> {
    ghost use Rattle.ab_fixtures.specs.NullRules.{Idle};

    ghost Value = { Idle };

    ghost view = { λ q. record { instance = q.instance; me = q.me; trimmed = q.trimmed; log = q.log } };
}

impl<S: Service> Protocol<S> for Null<S> {
    ghost use Rattle.std.specs.Prelude.{None};
    ghost use Rattle.ab_abs.specs.Acts.{state_of};
    ghost use Rattle.ab_abs.specs.Members.{IsAt};
    ghost use Rattle.ab_fixtures.specs.NullRules.{is_of_most, member_of, null, IsNullSound};

    ghost proto = { null };

    ghost sound = { IsNullSound S.machine };

    ghost stands = { λ x q me acts. IsAt x (member_of q) me (state_of acts me) };

    ghost serves = { is_of_most };

    ghost counted = { λ q. None };

    fn runs(kind: Kind) -> bool {
        match kind {
            Kind::Quorum | Kind::ZLight | Kind::Chain => true,
            Kind::Backup | Kind::ZCert => false,
        }
    }

    fn start(alloc: Global, _c: &Cluster, i: u32, me: u8, e: &Entry) -> Result<Self, OutOfMemory> {
        Ok(Null {
            instance: i,
            me,
            log: e.base.copy(alloc)?,
            trimmed: e.trimmed,
            of: PhantomData,
        })
    }

    fn on<N: Notary>(
        &mut self,
        alloc: Global,
        _m: MsgRef<'_>,
        _n: &mut N,
    ) -> Result<Outs, StepFault> {
        Ok(Outs::new(alloc))
    }

    fn timeout<N: Notary>(&mut self, alloc: Global, _n: &mut N) -> Result<Outs, StepFault> {
        Ok(Outs::new(alloc))
    }

    fn stop(&mut self) {}

    fn trim(&mut self, n: usize) {
        self.trimmed = n;
    }

    fn trimmed(&self) -> usize {
        self.trimmed
    }

    fn may_panic(&self) -> bool {
        true
    }

    fn copy(&self, alloc: Global) -> Result<Self, OutOfMemory> {
        Ok(Null {
            instance: self.instance,
            me: self.me,
            log: self.log.copy(alloc)?,
            trimmed: self.trimmed,
            of: PhantomData,
        })
    }

    fn log(&self) -> &History {
        &self.log
    }

    fn stopped(&self) -> bool {
        true
    }

    fn first(&self) -> Option<&History> {
        None
    }

    fn zcert(&self) -> Option<&Zcert> {
        None
    }

    fn timer(&self) -> Option<u64> {
        None
    }

    ghost use Rattle.ab_abs.proofs.Steps.{stays_at};
    ghost use Rattle.ab_fixtures.specs.NullLaws.{form_law, rule_law, nil_law, start_law, on_law, stop_law, trim_law, others_law, abstract_law, names_law};

    ghost stands_stays = { λ x acts a me q. stays_at x acts a me (member_of q) };

    ghost stands_trimmed = { λ x acts me n q low high. trim_law S.machine x acts me n q high };

    ghost formed = { form_law };

    ghost ruled = { rule_law S.machine };

    ghost sound_nil = { nil_law S.machine };

    ghost lawful_start = { λ x acts me e served low may was. let law = start_law S.machine x acts me e served low may in (law.0, law.1 was) };

    ghost lawful_on = { λ x acts me pen q m seen served. on_law S.machine x acts me pen q m seen served };

    ghost lawful_stop = { λ x acts me q served. stop_law S.machine x acts me q served };

    ghost lawful_others = { others_law S.machine };

    ghost sound_abstract = { abstract_law S.machine };

    ghost sound_names = { names_law S.machine };
}
