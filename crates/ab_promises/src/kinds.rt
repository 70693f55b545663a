//! How replicas of each kind begin and stop.

ghost use Rattle.ab_chain.specs.Rules.{chain};
ghost use Rattle.ab_order.specs.Protos.{backup};
ghost use Rattle.ab_quorum.specs.Rules.{quorum};
ghost use Rattle.ab_zcert.specs.Rules.{zcert_proto};
ghost use Rattle.ab_zlight.specs.Rules.{zlight};
ghost use Rattle.ab_promises.specs.Starts.{IsStoppable, IsUnstoppable};

use ab_backup::Orderer;
use ab_svc::Service;

/// A replica of Quorum, of ZLight, of Chain and of ZCert begins with its base as its log, and a stop leaves it
/// stopped. A replica of Backup begins with an empty log, and a stop leaves it as it is.
pub fn replicas_begin_and_stop<S: Service, O: Orderer>()
    ensures quorum { IsStoppable (quorum S.machine) }
    ensures zlight { IsStoppable (zlight S.machine) }
    ensures chain { IsStoppable (chain S.machine) }
    ensures zcert { IsStoppable (zcert_proto S.machine) }
    ensures backup { IsUnstoppable (backup O.orders O.rules S.machine) }
{}
