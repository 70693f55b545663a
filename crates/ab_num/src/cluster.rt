//! The size of a cluster, and its plan.

ghost use Rattle.std.specs.Prelude.{◌≡◌, ◌+◌, ◌*◌, ◌^◌, ◌<◌, ◌≤◌, ◌↔◌, min, IsSome, IfSome};
ghost use Rattle.ab_num.specs.Bounds.{IsInBounds};
ghost use Rattle.ab_num.specs.Places.{at_position_of, backups_before, kind_in_turn, kind_of, limit_of, position_in, primary_of};

use crate::plan::{Kind, Plan};

/// How many replicas may be faulty, how many clients there are, the plan, and after how many requests a checkpoint is due (0: never).
#[derive(Clone, Copy, Debug, PartialEq, Eq)]
pub struct Cluster {
    pub f: u8,
    pub clients: u16,
    pub plan: Plan,
    pub every: u16,
    pub ghost in_bounds: { IsInBounds f clients },
    pub ghost is_dense: { every ≤ 128 },
}

impl Cluster {
    /// The cluster of these numbers, if they are in bounds.
    pub fn new(f: u8, clients: u16, plan: Plan, every: u16) -> Option<Cluster>
        ensures variant { IsSome result ↔ IsInBounds f clients × (every ≤ 128) }
        ensures made { IfSome result (λ c. (c.f ≡ f) × (c.clients ≡ clients) × (c.plan ≡ plan) × (c.every ≡ every)) }
    {
        if f >= 1 && f <= 2 && clients >= 1 && clients <= 16 && every <= 128 {
            Some(Cluster {
                f,
                clients,
                plan,
                every,
            })
        } else {
            None
        }
    }

    /// The number of replicas.
    pub fn replicas(&self) -> u8
        ensures { result ≡ 3 * self.now.f + 1 }
    {
        3 * self.f + 1
    }

    /// The protocol of instance `i`, counted from 1.
    pub fn kind(&self, i: u32) -> Kind
        requires { 1 ≤ i }
        ensures { result ≡ kind_of self.now.plan i }
    {
        match self.plan {
            Plan::AZyzzyva => alternating_kind(Kind::ZLight, i),
            Plan::Aliph => cyclic_kind(i),
            Plan::Quorum => Kind::Quorum,
            Plan::ZLight => Kind::ZLight,
            Plan::Chain => Kind::Chain,
            Plan::Backup => Kind::Backup,
            Plan::ZCert => alternating_kind(Kind::ZCert, i),
        }
    }

    /// The primary of instance `i` in ZLight and ZCert.
    pub fn primary(&self, i: u32) -> u8
        requires { 1 ≤ i }
        ensures place { result ≡ primary_of self.now.f i }
        ensures replica { result < 3 * self.now.f + 1 }
    {
        ((i - 1) % u32::from(self.replicas())) as u8
    }

    /// The replica at position `p` of the chain of instance `i`, counted from 1.
    pub fn at_position(&self, i: u32, p: u8) -> u8
        requires instance { 1 ≤ i }
        requires position { (1 ≤ p) × (p ≤ 3 * self.now.f + 1) }
        ensures place { result ≡ at_position_of self.now.f i p }
        ensures replica { result < 3 * self.now.f + 1 }
    {
        let steps = u64::from(i - 1) + u64::from(p - 1);
        (steps % u64::from(self.replicas())) as u8
    }

    /// The position of replica `r` in the chain of instance `i`, counted from 1.
    pub fn position_of(&self, i: u32, r: u8) -> u8
        requires instance { 1 ≤ i }
        requires replica { r < 3 * self.now.f + 1 }
        ensures position { (1 ≤ result) × (result ≤ 3 * self.now.f + 1) }
        ensures counted { result ≡ position_in self.now.f i r }
        ensures here { at_position_of self.now.f i result ≡ r }
    {
        let first = self.primary(i);
        if first <= r {
            r - first + 1
        } else {
            r + self.replicas() - first + 1
        }
    }

    /// How many requests the Backup instance `i` commits.
    pub fn limit(&self, i: u32) -> u8
        requires instance { 1 ≤ i }
        requires kind { kind_of self.now.plan i ≡ Kind.Backup }
        ensures limit { result ≡ limit_of self.now.plan i }
        ensures few { (1 ≤ result) × (result ≤ 16) }
    {
        doubled(self.backups_before(i))
    }

    /// How many Backups come before the Backup instance `i`.
    fn backups_before(&self, i: u32) -> u32
        requires instance { 1 ≤ i }
        requires kind { kind_of self.now.plan i ≡ Kind.Backup }
        ensures { result ≡ backups_before self.now.plan i }
    {
        match self.plan {
            Plan::AZyzzyva | Plan::ZCert => i / 2 - 1,
            Plan::Aliph => i / 3 - 1,
            Plan::Backup => i - 1,
            Plan::Quorum | Plan::ZLight | Plan::Chain => 0,
        }
    }
}

/// The kind `odd` in odd instances, Backup in even ones.
fn alternating_kind(odd: Kind, i: u32) -> Kind
    ensures { result ≡ kind_in_turn odd i }
{
    if i % 2 == 1 { odd } else { Kind::Backup }
}

/// Quorum, Chain, Backup, and again.
fn cyclic_kind(i: u32) -> Kind
    ensures { result ≡ kind_of Plan.Aliph i }
{
    match i % 3 {
        1 => Kind::Quorum,
        2 => Kind::Chain,
        _ => Kind::Backup,
    }
}

/// One, doubled so many times, but at most 16.
fn doubled(times: u32) -> u8
    ensures value { result ≡ min 16 (2 ^ times) }
    ensures few { (1 ≤ result) × (result ≤ 16) }
{
    match times {
        0 => 1,
        1 => 2,
        2 => 4,
        3 => 8,
        _ => 16,
    }
}
