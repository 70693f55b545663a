//! A replica of an order that replica 0 makes by itself.

ghost use Rattle.std.specs.Prelude.{◌≡◌, ◌++◌, ◌∷◌, [], ◌&&◌, true, Some, IfOk, OnOk, drop, if◌then◌else◌, length};
ghost use Rattle.ab_hist.specs.Histories.{can_push as test_push};
ghost use Rattle.ab_fixtures.specs.SoloRules.{next, behind_with};

use ab_abs::{Entry, StepFault};
use ab_backup::{Orderer, asked_in};
use ab_hist::{History, PushFault, Request};
use ab_msg::{Notary, Outs};
use ab_num::{Cluster, OutOfMemory};
use ab_wire::MsgRef;
use std::alloc::Global;
use std::marker::Model;

/// As the first request comes, replica 0 executes the history that it entered with, and behind it each request as it
/// comes, with no word to the others. No other replica executes anything, and it neither, if that history has
/// more than 1,024 requests.
#[derive(Drop)]
pub struct Solo {
    cluster: Cluster,
    instance: u32,
    me: u8,
    limit: u8,
    entered: History,
    begun: bool,
    log: History,
}

impl Model for Solo {
    ghost use Rattle.std.specs.Prelude.{◌≡◌, drop, length};
    ghost use Rattle.ab_fixtures.specs.SoloRules.{Placed, list_if};

    ghost Value = { Placed };

    ghost view = { λ q. record { cluster = q.cluster; at = record { instance = q.instance; me = q.me; k = q.limit; entered = q.entered; begun = q.begun; behind = drop (length q.entered) q.log } } };

    ghost invariant = { λ q. q.log ≡ list_if q.begun q.entered (drop (length q.entered) q.log) };
}

/// Adds a request, if there is room for it and it may come next.
fn add(alloc: Global, log: &mut History, room: bool, m: Request) -> Result<(), OutOfMemory>
    ensures { OnOk result (log.new ≡ (if room && test_push log.old m then log.old ++ m ∷ [] else log.old)) }
{
    if !room || !log.can_push(&m) {
        return Ok(());
    }
    match log.push(alloc, m) {
        Ok(()) => Ok(()),
        Err(PushFault::OutOfMemory) => Err(OutOfMemory),
        Err(_) => unreachable!(),
    }
}

impl Solo {
    /// The list with its base.
    fn begun_log(&self, alloc: Global) -> Result<History, OutOfMemory>
        ensures { IfOk result (λ log. log ≡ self.now.at.entered ++ self.now.at.behind) }
    {
        if self.begun {
            self.log.copy(alloc)
        } else {
            self.entered.copy(alloc)
        }
    }

    /// The list after a request.
    fn next_log(&self, alloc: Global, m: Request) -> Result<History, OutOfMemory>
        ensures { IfOk result (λ log. log ≡ self.now.at.entered ++ behind_with true self.now.at.k self.now.at.entered self.now.at.behind (Some m)) }
    {
        let mut log = self.begun_log(alloc)?;
        let room = log.len() - self.entered.len() < usize::from(self.limit);
        add(alloc, &mut log, room, m)?;
        Ok(log)
    }

    /// An event.
    fn turn(&self, alloc: Global, asked: Option<Request>) -> Result<Solo, OutOfMemory>
        ensures { IfOk result (λ p. p ≡ record { cluster = self.now.cluster; at = next self.now.at asked }) }
    {
        let Some(m) = asked else {
            return self.copy(alloc);
        };
        if self.me != 0 || self.entered.len() > 1024 {
            return self.copy(alloc);
        }
        let log = self.next_log(alloc, m)?;
        Ok(Solo {
            cluster: self.cluster,
            instance: self.instance,
            me: self.me,
            limit: self.limit,
            entered: self.entered.copy(alloc)?,
            begun: true,
            log,
        })
    }
}

impl Orderer for Solo {
    ghost use Rattle.std.specs.Prelude.{None};
    ghost use Rattle.ab_fixtures.specs.SoloRules.{Sole, solo, solos, StandsSolo, IsSoloSound};

    ghost View = { Sole };

    ghost orders = { solos };

    ghost rules = { solo };

    ghost sound = { IsSoloSound };

    ghost stands = { StandsSolo };

    ghost counted = { λ p. None };

    fn start(alloc: Global, c: &Cluster, i: u32, me: u8, e: &Entry) -> Result<Self, OutOfMemory> {
        Ok(Solo {
            cluster: *c,
            instance: i,
            me,
            limit: c.limit(i),
            entered: e.base.copy(alloc)?,
            begun: false,
            log: History::new(alloc),
        })
    }

    fn on<N: Notary>(
        &self,
        alloc: Global,
        m: MsgRef<'_>,
        _n: &mut N,
    ) -> Result<(Self, Outs), StepFault> {
        let next = self.turn(alloc, asked_in(self.instance, &m))?;
        Ok((next, Outs::new(alloc)))
    }

    fn timeout<N: Notary>(&self, alloc: Global, _n: &mut N) -> Result<(Self, Outs), StepFault> {
        let next = self.turn(alloc, None)?;
        Ok((next, Outs::new(alloc)))
    }

    fn copy(&self, alloc: Global) -> Result<Self, OutOfMemory> {
        Ok(Solo {
            cluster: self.cluster,
            instance: self.instance,
            me: self.me,
            limit: self.limit,
            entered: self.entered.copy(alloc)?,
            begun: self.begun,
            log: self.log.copy(alloc)?,
        })
    }

    fn base(&self) -> Option<&History> {
        if self.begun {
            Some(&self.entered)
        } else {
            None
        }
    }

    fn first(&self) -> Option<&History> {
        None
    }

    fn ordered(&self) -> &History {
        &self.log
    }

    fn turns(&self) -> Option<u64> {
        None
    }

    ghost use Rattle.ab_fixtures.specs.SoloLaws.{solo_obeys, solo_orderly, solo_owns, solo_lawful, solo_bytes};

    ghost obeys = { solo_obeys };

    ghost orderly = { solo_orderly };

    ghost owned = { solo_owns };

    ghost lawful = { solo_lawful };

    ghost bytes = { solo_bytes };
}
