//! Draws against those of another implementation.

use ab_num::{Cluster, Party, Plan};
use ab_storm::Storm;
use ab_text::{Core, Event};

fn is_delivery(event: &Event, number: u64) -> bool {
    match event {
        Event::Deliver { packet, core: None } => *packet == number,
        _ => false,
    }
}

fn is_timeout(event: &Event, of: Party) -> bool {
    match event {
        Event::Timeout { core } => *core
            == Core {
                party: of,
                twin: None,
            },
        _ => false,
    }
}

fn is_put(event: &Event, client: u16, text: &[u8]) -> bool {
    match event {
        Event::Invoke { core, command } => {
            *core
                == Core {
                    party: Party::Client(client),
                    twin: None,
                }
                && command.as_slice() == text
        }
        _ => false,
    }
}

fn only(client: usize) -> [bool; 16] {
    let mut idle = [false; 16];
    if client < 16 {
        idle[client] = true;
    }
    idle
}

fn none() -> [bool; 16] {
    [false; 16]
}

#[test]
fn first_event_of_seed_zero_is_a_timeout(rt: HostRuntime) {
    let cluster = Cluster::new(1, 1, Plan::Quorum, 0).expect(&rt, "no cluster");
    let mut storm = Storm::new(0, &cluster);
    assert!(rt; is_timeout(&storm.next(0, &only(0)), Party::Replica(0)));
}

#[test]
fn storms_of_seven_replicas(rt: HostRuntime) {
    let cluster = Cluster::new(2, 16, Plan::Aliph, 0).expect(&rt, "no cluster");
    let mut storm = Storm::new(20, &cluster);
    assert!(rt; is_put(&storm.next(0, &only(3)), 3, b"put k0 v478"));
    assert!(rt; is_timeout(&storm.next(0, &none()), Party::Client(4)));
    assert!(rt; is_put(&storm.next(3, &only(3)), 3, b"put k8 v415"));
    assert!(rt; is_delivery(&storm.next(3, &none()), 1));
    assert!(rt; is_delivery(&storm.next(200, &only(3)), 2));
    assert!(rt; is_timeout(&storm.next(200, &none()), Party::Replica(5)));
    assert!(rt; is_timeout(&storm.next(200, &only(3)), Party::Client(4)));
}

#[test]
fn packets_come_again(rt: HostRuntime) {
    let cluster = Cluster::new(2, 16, Plan::Aliph, 0).expect(&rt, "no cluster");
    let mut storm = Storm::new(11, &cluster);
    assert!(rt; is_put(&storm.next(0, &only(3)), 3, b"put k1 v143"));
    assert!(rt; is_timeout(&storm.next(0, &none()), Party::Client(14)));
    assert!(rt; is_delivery(&storm.next(3, &only(3)), 1));
    assert!(rt; is_delivery(&storm.next(3, &none()), 1));
    assert!(rt; is_put(&storm.next(200, &only(3)), 3, b"put k3 v675"));
    assert!(rt; is_delivery(&storm.next(200, &none()), 169));
    assert!(rt; is_put(&storm.next(200, &only(3)), 3, b"put k9 v827"));
}
