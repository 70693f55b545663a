//! A service that goes ahead of a log.

ghost use Rattle.std.specs.Prelude.{◌≡◌, ◌+◌, [], ◌∷◌, ◌++◌, ◌<◌, ◌≤◌, length, IfOk, OnOk, OnErr};
ghost use Rattle.ab_hist.specs.Digests.{digest_of};
ghost use Rattle.ab_svc.specs.Machines.{serve};
ghost use Rattle.ab_abs.specs.Answers.{vote_at};
ghost use Rattle.ab_trial.specs.Trials.{HasServed};

use ab_abs::Vote;
use ab_hist::{History, Request};
use ab_num::OutOfMemory;
use ab_svc::{Reply, Service};
use std::alloc::Global;

/// The digest of a log with one more request.
pub fn digest_with(log: &History, m: &Request) -> [u8; 32]
    ensures { result ≡ digest_of (log.now ++ m.now ∷ []) }
{
    ab_mac::link(&log.digest_at(log.len()), m.bytes().as_slice())
}

/// The service, as it is after the first so many requests of a log.
pub struct Trial<S: Service> {
    pub state: S,
    pub served: usize,
}

impl<S: Service> Drop for Trial<S> {
    fn drop(self) {
        let Trial {
            state: _,
            served: _,
        } = self;
    }
}

impl<S: Service> Trial<S> {
    /// The service before its first request.
    pub fn new(alloc: Global) -> Result<Trial<S>, OutOfMemory>
        ensures { IfOk result (λ t. (t.served ≡ 0) × (t.state ≡ S.machine.begin)) }
    {
        let state = S::start(alloc)?;
        Ok(Trial { state, served: 0 })
    }

    /// Executes one request more of a log.
    fn serve(&mut self, alloc: Global, log: &History) -> Result<(), OutOfMemory>
        requires served { HasServed S.machine log.now self.old.served self.old.state }
        requires more { self.old.served + 1 ≤ length log.now }
        ensures kept { HasServed S.machine log.now self.new.served self.new.state }
        ensures ok { OnOk result (self.new.served ≡ self.old.served + 1) }
    {
        let within = self.served < log.len();
        prove!(within);
        let _reply = self.state.apply(alloc, log.at(self.served + 1))?;
        self.served += 1;
        Ok(())
    }

    /// Executes what it has not executed of a log.
    fn catch_up(&mut self, alloc: Global, log: &History) -> Result<(), OutOfMemory>
        requires { HasServed S.machine log.now self.old.served self.old.state }
        ensures kept { HasServed S.machine log.now self.new.served self.new.state }
        ensures ok { OnOk result (self.new.served ≡ length log.now) }
    {
        'serving: while self.served < log.len() {
            self.serve(alloc, log)?;
        }
        Ok(())
    }

    /// The reply to a request behind a log, which it then has executed too. After an `Err` it has
    /// executed requests of the log alone.
    pub fn reply_to(
        &mut self,
        alloc: Global,
        log: &History,
        m: &Request,
    ) -> Result<Reply, OutOfMemory>
        requires { HasServed S.machine log.now self.old.served self.old.state }
        ensures ok { IfOk result (λ reply. (reply ≡ S.machine.answer (serve S.machine log.now) m.now) × HasServed S.machine (log.now ++ m.now ∷ []) self.new.served self.new.state) }
        ensures err { OnErr result (HasServed S.machine log.now self.new.served self.new.state) }
    {
        self.catch_up(alloc, log)?;
        let reply = self.state.apply(alloc, m)?;
        self.served = log.len() + 1;
        Ok(reply)
    }

    /// The answer to a request that is logged next, which it then has executed too. After an `Err` it has
    /// executed requests of the log alone.
    pub fn next_vote(
        &mut self,
        alloc: Global,
        log: &History,
        m: &Request,
    ) -> Result<Vote, OutOfMemory>
        requires served { HasServed S.machine log.now self.old.served self.old.state }
        requires room { length log.now < 65535 }
        ensures ok { IfOk result (λ vote. (vote ≡ vote_at S.machine (log.now ++ m.now ∷ []) m.now (length log.now + 1) (length log.now + 1)) × HasServed S.machine (log.now ++ m.now ∷ []) self.new.served self.new.state) }
        ensures err { OnErr result (HasServed S.machine log.now self.new.served self.new.state) }
    {
        let reply = self.reply_to(alloc, log, m)?;
        let within = log.len() < usize::from(u16::MAX);
        prove!(within);
        Ok(Vote {
            n: log.len() as u16 + 1,
            d: digest_with(log, m),
            reply,
        })
    }
}
