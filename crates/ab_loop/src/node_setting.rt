//! What a node is told once.

ghost use Rattle.std.specs.Prelude.{◌≡◌, ◌≤◌, ◌↔◌, IsTrue, SomeIff};
ghost use Rattle.ab_msg.specs.Fields.{IsParty};
ghost use Rattle.ab_loop.specs.Settings.{IsNodeSetting, highest_base};

use ab_num::Party;
use std::marker::Model;

/// The highest port at which ports may begin: above it some party of a cluster might have none.
const HIGHEST_BASE: u16 = 65_000;

/// Who the party is, where the ports begin, how long a turn waits, in milliseconds, and whether each
/// event has a line. The ports of all parties are ports, and messages can name the party.
#[derive(Drop)]
pub struct NodeSetting {
    me: Party,
    base: u16,
    wait: u32,
    trace: bool,
}

impl Model for NodeSetting {
    ghost use Rattle.ab_loop.specs.Settings.{NodeSetting as TheSetting, IsNodeSetting};

    ghost Value = { TheSetting };

    ghost view = { λ s. record { me = s.me; base = s.base; wait = s.wait; trace = s.trace } };

    ghost invariant = { λ s. IsNodeSetting (record { me = s.me; base = s.base; wait = s.wait; trace = s.trace }) };
}

/// Whether a message can name the party: a cluster has 7 replicas and 16 clients at most.
fn can_be_named(party: Party) -> bool
    ensures { IsTrue result ↔ IsParty party }
{
    match party {
        Party::Replica(r) => r <= 6,
        Party::Client(c) => c <= 15,
    }
}

impl NodeSetting {
    /// None exactly where ports begin above 65,000 or no cluster has the party.
    pub fn new(me: Party, base: u16, wait: u32, trace: bool) -> Option<NodeSetting>
        ensures { SomeIff result (IsNodeSetting (record { me = me; base = base; wait = wait; trace = trace })) (record { me = me; base = base; wait = wait; trace = trace }) }
    {
        if base <= HIGHEST_BASE && can_be_named(me) {
            Some(NodeSetting {
                me,
                base,
                wait,
                trace,
            })
        } else {
            None
        }
    }

    /// Who the party is.
    pub fn me(&self) -> Party
        ensures value { result ≡ self.now.me }
        ensures party { IsParty result }
    {
        self.me
    }

    /// Where the ports begin.
    pub fn base(&self) -> u16
        ensures value { result ≡ self.now.base }
        ensures bound { result ≤ highest_base }
    {
        self.base
    }

    /// How long a turn waits, in milliseconds.
    pub fn wait(&self) -> u32
        ensures { result ≡ self.now.wait }
    {
        self.wait
    }

    /// Whether each event has a line.
    pub fn trace(&self) -> bool
        ensures { result ≡ self.now.trace }
    {
        self.trace
    }
}
