//! The lifelines of a picture.

ghost use Rattle.std.specs.Prelude.{◌≡◌, [], ◌∷◌, ◌++◌, IfOk, OnOk, map};
ghost use Rattle.std.specs.List.{flat_map, range_with_len};
ghost use Rattle.ab_num.specs.declared.party.Party.TheVariants.{Replica, Client};
ghost use Rattle.ab_picture.specs.Lanes.{cores_of, lane_of, lanes_of, party_lanes, twin_lane};

use crate::picture::Lane;
use ab_num::{Cluster, OutOfMemory, Party};
use ab_text::Core;
use std::alloc::Global;

/// How many cores a faulty party has. None for a correct one.
fn cores_of(faulty: &[(Party, u8)], party: Party) -> Option<u8>
    ensures { result ≡ cores_of faulty.now party }
{
    faulty
        .iter()
        .find(|entry| entry.0.is_same(party))
        .map(|entry| entry.1)
}

/// Adds the lanes of a faulty party's cores, side by side.
fn add_twins(lanes: &mut Vec<Lane>, party: Party, cores: u8) -> Result<(), OutOfMemory>
    ensures { OnOk result (lanes.new.items ≡ lanes.old.items ++ map (twin_lane party) (range_with_len 1 cores)) }
{
    for earlier in 0..cores {
        lanes.push(Lane {
            core: Core {
                party,
                twin: Some(earlier + 1),
            },
            faulty: true,
        })?;
    }
    Ok(())
}

/// Adds the lane of a correct party.
fn add_lane(lanes: &mut Vec<Lane>, party: Party) -> Result<(), OutOfMemory>
    ensures { OnOk result (lanes.new.items ≡ lanes.old.items ++ lane_of party ∷ []) }
{
    lanes.push(Lane {
        core: Core { party, twin: None },
        faulty: false,
    })?;
    Ok(())
}

/// Adds the lanes of a party.
fn add_lanes(lanes: &mut Vec<Lane>, faulty: &[(Party, u8)], party: Party) -> Result<(), OutOfMemory>
    ensures { OnOk result (lanes.new.items ≡ lanes.old.items ++ party_lanes faulty.now party) }
{
    match cores_of(faulty, party) {
        None => add_lane(lanes, party),
        Some(cores) => add_twins(lanes, party, cores),
    }
}

/// Adds the lanes of the clients from number 0 up to this one.
fn add_clients(
    lanes: &mut Vec<Lane>,
    faulty: &[(Party, u8)],
    clients: u16,
) -> Result<(), OutOfMemory>
    ensures { OnOk result (lanes.new.items ≡ lanes.old.items ++ flat_map (λ c. party_lanes faulty.now (Client c)) (range_with_len 0 clients)) }
{
    for c in 0..clients {
        add_lanes(lanes, faulty, Party::Client(c))?;
    }
    Ok(())
}

/// Adds the lanes of so many replicas.
fn add_replicas(
    lanes: &mut Vec<Lane>,
    faulty: &[(Party, u8)],
    replicas: u8,
) -> Result<(), OutOfMemory>
    ensures { OnOk result (lanes.new.items ≡ lanes.old.items ++ flat_map (λ r. party_lanes faulty.now (Replica r)) (range_with_len 0 replicas)) }
{
    for r in 0..replicas {
        add_lanes(lanes, faulty, Party::Replica(r))?;
    }
    Ok(())
}

/// The lifelines of a cluster in which these parties are faulty, each with the number of its cores: first the
/// clients, then the replicas.
pub(crate) fn lanes(
    alloc: Global,
    cluster: &Cluster,
    faulty: &[(Party, u8)],
) -> Result<Vec<Lane>, OutOfMemory>
    ensures { IfOk result (λ v. v.items ≡ lanes_of cluster.now faulty.now) }
{
    let mut lanes = Vec::new(alloc);
    add_clients(&mut lanes, faulty, cluster.clients)?;
    add_replicas(&mut lanes, faulty, cluster.replicas())?;
    Ok(lanes)
}
