//! Whether the premises of the order properties hold.

ghost use Rattle.std.specs.Prelude.{◌≡◌};
ghost use Rattle.ab_run.specs.Stages.{first_of, forgery};
ghost use Rattle.ab_premise.specs.Collisions.{first_collision};
ghost use Rattle.ab_premise.specs.Premises.{faulty_premise, first_premise, forged_first, passing};

use crate::breach::{Collision, Forgery};
use ab_num::Party;
use ab_text::{Breach, Premise};

/// The first forgery, where in this event the name of a party was forged, if it was.
pub(crate) fn first_forgery(
    before: Option<Forgery>,
    event: u32,
    found: Option<Party>,
) -> Option<Forgery>
    ensures { forged_first result ≡ first_of (forged_first before) (forgery event found) }
{
    match (before, found) {
        (Some(forgery), _) => Some(forgery),
        (None, Some(maker)) => Some(Forgery { event, maker }),
        (None, None) => None,
    }
}

/// The first collision, where one was found in this event of a party.
pub(crate) fn first_collision(
    before: Option<Collision>,
    event: u32,
    party: Party,
    found: bool,
) -> Option<Collision>
    ensures { result ≡ first_collision before event party found }
{
    match before {
        Some(collision) => Some(collision),
        None if found => Some(Collision { event, party }),
        None => None,
    }
}

/// The replica whose declaration passes `f`.
fn passing(f: u8, faulty: &[(Party, u8)]) -> Option<Party>
    ensures { result ≡ passing f faulty.now }
{
    faulty
        .iter()
        .map(|e| e.0)
        .filter(|p| matches!(p, Party::Replica(_)))
        .nth(f as usize)
}

/// What was broken first, and in one event the forgery.
fn first_premise(forged: Option<Forgery>, collided: Option<Collision>) -> Premise
    ensures { result ≡ first_premise (forged_first forged) collided }
{
    let later = match collided {
        Some(collision) => Premise::Broken {
            event: collision.event,
            breach: Breach::Collision,
            party: collision.party,
        },
        None => Premise::Held,
    };
    let Some(forgery) = forged else {
        return later;
    };
    match collided {
        Some(collision) if collision.event < forgery.event => later,
        _ => Premise::Broken {
            event: forgery.event,
            breach: Breach::Forged,
            party: forgery.maker,
        },
    }
}

/// The premise line where these parties are faulty, and this was forged and collided first.
pub(crate) fn premise(
    f: u8,
    faulty: &[(Party, u8)],
    forged: Option<Forgery>,
    collided: Option<Collision>,
) -> Premise
    ensures { result ≡ faulty_premise (passing f faulty.now) (first_premise (forged_first forged) collided) }
{
    match passing(f, faulty) {
        Some(party) => Premise::Broken {
            event: 0,
            breach: Breach::Faulty,
            party,
        },
        None => first_premise(forged, collided),
    }
}
