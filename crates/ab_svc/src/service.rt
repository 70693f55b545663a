//! What a cluster replicates.

use ab_hist::{Reply, Request};
use ab_num::OutOfMemory;
use std::alloc::Global;

/// A service, as a function of its state and a request: the same requests in the same order leave
/// the same state and get the same replies, at each replica.
pub trait Service: Sized + Drop {
    ghost use Rattle.std.specs.Prelude.{◌≡◌, ◌≤◌, List, length, IfOk, OnErr};
    ghost use Rattle.ab_hist.specs.declared.request.Request.{Request as Asked};
    ghost use Rattle.ab_svc.specs.Machines.{Machine, serve};

    /// The state at the beginning, and what a request does to it and gets from it.
    ghost machine: { Machine Self };

    /// The service before its first request.
    fn start(alloc: Global) -> Result<Self, OutOfMemory>
        ensures { IfOk result (λ s. s ≡ machine.begin) };

    /// Executes a request. After an `Err` the service is as before.
    fn apply(&mut self, alloc: Global, m: &Request) -> Result<Reply, OutOfMemory>
        ensures ok { IfOk result (λ reply. (self.new ≡ machine.after self.old m.now) × (reply ≡ machine.answer self.old m.now)) }
        ensures err { OnErr result (self.new ≡ self.old) };

    /// An equal service.
    fn copy(&self, alloc: Global) -> Result<Self, OutOfMemory>
        ensures { IfOk result (λ s. s ≡ self.now) };

    /// Whatever was served before, a reply has at most 72 bytes.
    ghost short: { (h : List Asked) (m : Asked) → length (machine.answer (serve machine h) m).items ≤ 72 };
}
