//! Quorum in its own instances, and a protocol that rests in those of ZLight and Chain.

ghost use Rattle.std.specs.Prelude.{◌≡◌, ◌≤◌, IsTrue};
ghost use Rattle.ab_num.specs.Places.{kind_of};

use ab_abs::{Entry, Protocol, ReplyRule};
use ab_fixtures::Null;
use ab_hist::History;
use ab_msg::Mute;
use ab_num::{Cluster, Kind, OutOfMemory, Plan};
use ab_plans::Choice;
use ab_quorum::Quorum;
use ab_svc::Echo;
use std::alloc::Global;

type Both = Choice<Quorum<Echo>, Null<Echo>>;

/// Whether the protocol of an instance is stopped as it begins and has this rule, and a copy of it,
/// stopped from outside, is.
fn begins<P: Protocol<Echo>>(
    alloc: Global,
    c: &Cluster,
    i: u32,
    stopped: bool,
    rule: ReplyRule,
) -> Result<bool, OutOfMemory>
    requires instance { 1 ≤ i }
    requires served { IsTrue (P.serves (kind_of c.now.plan i)) }
{
    let entry = Entry {
        base: History::new(alloc),
        trimmed: 0,
        cert: None,
    };
    let replica = P::start(alloc, c, i, 0, &entry)?;
    let mut same = replica.copy(alloc)?;
    same.stop();
    let idle = match same.timeout(alloc, &mut Mute) {
        Ok(outs) => outs.len() == 0,
        Err(_) => false,
    };
    let numbers = P::need(c, i) == 3 && P::reply_rule(c, i) == rule;
    Ok(replica.stopped() == stopped && same.stopped() && idle && numbers)
}

/// Whether each of the first two instances of the plan has its protocol.
fn chooses(alloc: Global, c: &Cluster) -> Result<bool, OutOfMemory>
    requires { c.now.plan ≡ Plan.Aliph }
{
    let first = begins::<Both>(alloc, c, 1, false, ReplyRule::All)?;
    let second = begins::<Both>(alloc, c, 2, true, ReplyRule::Tail)?;
    let kinds = <Both as Protocol<Echo>>::runs(Kind::ZLight)
        && !<Both as Protocol<Echo>>::runs(Kind::Backup);
    Ok(first && second && kinds)
}

#[test]
fn each_kind_has_its_protocol(rt: HostRuntime) {
    let chosen = match Cluster::new(1, 4, Plan::Aliph, 0) {
        Some(c) => chooses(rt.alloc(), &c),
        None => Ok(false),
    };
    assert!(rt; chosen == Ok(true));
}
