//! One replica that hands its base on.

ghost use Rattle.std.specs.Prelude.{IsTrue};
ghost use Rattle.ab_num.specs.Places.{kind_of};

use ab_abs::{Entry, Protocol, ReplyRule};
use ab_fixtures::Null;
use ab_hist::History;
use ab_msg::Mute;
use ab_num::{Cluster, OutOfMemory, Plan};
use ab_svc::Echo;
use std::alloc::Global;

fn rests<P: Protocol<Echo>>(alloc: Global, c: &Cluster) -> Result<bool, OutOfMemory>
    requires { IsTrue (P.serves (kind_of c.now.plan 2)) }
{
    let entry = Entry {
        base: History::new(alloc),
        trimmed: 0,
        cert: None,
    };
    let mut replica = P::start(alloc, c, 2, 0, &entry)?;
    let quiet = match replica.timeout(alloc, &mut Mute) {
        Ok(outs) => outs.len() == 0,
        Err(_) => false,
    };
    replica.stop();
    let same = replica.copy(alloc)?;
    let none = same.first().is_none() && same.timer().is_none();
    let numbers = P::need(c, 2) == 3 && P::reply_rule(c, 2) == ReplyRule::Tail;
    let stopped = same.stopped() && same.may_panic();
    Ok(quiet && same.log().len() == 0 && none && numbers && stopped)
}

#[test]
fn null_rests(rt: HostRuntime) {
    let kept = match Cluster::new(1, 4, Plan::Aliph, 0) {
        Some(c) => rests::<Null<Echo>>(rt.alloc(), &c),
        None => Ok(false),
    };
    assert!(rt; kept == Ok(true));
}
