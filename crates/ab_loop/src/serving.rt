//! A node from its start to its end.

ghost use Rattle.std.specs.Prelude.{◌≡◌, ◌≤◌, IfOk, IfErr, length};
ghost use Rattle.ab_io.specs.Datagrams.{longest_datagram};
ghost use Rattle.ab_loop.specs.Edges.{LeavesFront, Tells, edge, keep_state};
ghost use Rattle.ab_loop.specs.Texts.{end_text};
ghost use Rattle.ab_loop.specs.Lives.{IsExit};
ghost use Rattle.ab_loop.specs.Runs.{HasServed, HasBroken, HasRun, ShowsNumbers, ShowsOpen, HasFaultOf, start_of};

use crate::fault::ServeFault;
use crate::node::Node;
use crate::node_setting::NodeSetting;
use crate::outside::say;
use crate::parcel::port_of;
use crate::party_core::PartyCore;
use crate::past::Past;
use crate::texts::end_line;
use ab_disk::{Disk, Keeper};
use ab_io::{Clock, Failed, LONGEST_DATAGRAM, Link, Sink};
use ab_num::Party;
use ab_text::Items;
use arrayvec::ArrayVec;
use std::alloc::Global;

/// A client's commands, each of 1 to 128 bytes.
pub type Commands = Items<ArrayVec<u8, 128>>;

/// What a node has to do: a client has commands, a replica has none, and both have their turns, and the
/// events of their earlier runs.
#[derive(Drop)]
pub struct Job<K: PartyCore> {
    pub core: K,
    pub setting: NodeSetting,
    pub commands: Commands,
    pub turns: u64,
    pub past: Past,
}

/// The numbers of a node that has ended.
#[derive(Clone, Copy, Debug, PartialEq, Eq)]
pub struct Served {
    pub events: u64,
    pub sent: u64,
    pub lost: u64,
    pub spent: u64,
}

/// The events of earlier runs and the first command, and then turns, until the commands are answered or the turns are used. Answers
/// the node and how many datagrams were lost.
fn drive<K: PartyCore, L: Link, C: Clock, O: Sink, D: Disk, J: Keeper<D>>(
    alloc: Global,
    core: K,
    setting: &NodeSetting,
    past: &Past,
    commands: Commands,
    turns: u64,
    buf: &mut [u8],
    link: &mut L,
    clock: &mut C,
    out: &mut O,
    keeper: &mut J,
    disk: &mut D,
) -> Result<(Node<K>, u64), ServeFault>
    requires buf { longest_datagram ≤ length buf.old }
    requires ready { J.ready keeper.old disk.old }
    ensures ok { IfOk result (λ r. HasRun K.rules (start_of setting.now turns core past.now commands (C.state clock.old) (L.state link.old))
        (edge (O.state out.old) (L.state link.old) (keep_state D.model J.kept keeper.old disk.old))
        (edge (O.state out.new) (L.state link.new) (keep_state D.model J.kept keeper.new disk.new))
        (LeavesFront D.model J.list_of (J.kept keeper.old disk.old) disk.old disk.new) (C.state clock.new).readings r.0 r.1) }
    ensures err { IfErr result (λ why. HasBroken K.rules (start_of setting.now turns core past.now commands (C.state clock.old) (L.state link.old))
        (edge (O.state out.old) (L.state link.old) (keep_state D.model J.kept keeper.old disk.old))
        (edge (O.state out.new) (L.state link.new) (keep_state D.model J.kept keeper.new disk.new))
        (LeavesFront D.model J.list_of (J.kept keeper.old disk.old) disk.old disk.new) (C.state clock.new).readings why) }
{
    let first = clock.now();
    let mut node = Node::new(alloc, setting, first, core, commands);
    let mut lost = match node.begin(alloc, setting, first, past, link, out, keeper, disk) {
        Ok(lost) => lost,
        Err(fault) => return Err(fault),
    };
    'turns: for _turn in 0..turns {
        if node.is_done(setting) {
            return Ok((node, lost));
        }
        let t = clock.now();
        match node.turn(alloc, setting, t, buf, link, out, keeper, disk) {
            Ok(more) => lost = lost.saturating_add(more),
            Err(fault) => return Err(fault),
        }
    }
    Ok((node, lost))
}

/// Writes the line of the end.
fn say_end<K: PartyCore, O: Sink>(
    alloc: Global,
    node: &Node<K>,
    lost: u64,
    out: &mut O,
) -> Result<(), ServeFault>
    ensures { Tells (O.state out.old) (O.state out.new) (end_text node.now.events node.now.sent lost node.now.spent) result }
{
    match end_line(alloc, node.events(), node.sent(), lost, node.spent()) {
        Ok(line) => say(out, line.as_bytes()),
        Err(_) => Err(ServeFault::OutOfMemory),
    }
}

/// The turns, and then the line of the end.
fn run<K: PartyCore, L: Link, C: Clock, O: Sink, D: Disk, J: Keeper<D>>(
    alloc: Global,
    core: K,
    setting: &NodeSetting,
    past: &Past,
    commands: Commands,
    turns: u64,
    buf: &mut [u8],
    link: &mut L,
    clock: &mut C,
    out: &mut O,
    keeper: &mut J,
    disk: &mut D,
) -> Result<Served, ServeFault>
    requires buf { longest_datagram ≤ length buf.old }
    requires ready { J.ready keeper.old disk.old }
    ensures ok { IfOk result (λ served. HasServed K.rules (start_of setting.now turns core past.now commands (C.state clock.old) (L.state link.old))
        (edge (O.state out.old) (L.state link.old) (keep_state D.model J.kept keeper.old disk.old))
        (edge (O.state out.new) (L.state link.new) (keep_state D.model J.kept keeper.new disk.new))
        (LeavesFront D.model J.list_of (J.kept keeper.old disk.old) disk.old disk.new) (C.state clock.new).readings served) }
    ensures err { IfErr result (λ why. HasFaultOf K.rules (start_of setting.now turns core past.now commands (C.state clock.old) (L.state link.old))
        (edge (O.state out.old) (L.state link.old) (keep_state D.model J.kept keeper.old disk.old))
        (edge (O.state out.new) (L.state link.new) (keep_state D.model J.kept keeper.new disk.new))
        (LeavesFront D.model J.list_of (J.kept keeper.old disk.old) disk.old disk.new) (C.state clock.new).readings why) }
{
    match drive(
        alloc, core, setting, past, commands, turns, buf, link, clock, out, keeper, disk,
    ) {
        Ok((node, lost)) => match say_end(alloc, &node, lost, out) {
            Ok(()) => ended(setting, &node, lost),
            Err(fault) => Err(fault),
        },
        Err(fault) => Err(fault),
    }
}

/// Serves a party: its events are those of the turn rule, behind those of earlier runs, its text, what it
/// keeps and its datagrams are those of its core, and after a fault a front of them. Each new event is kept
/// before anything of it is sent. At any moment a crash leaves what was kept before and a front of this.
/// Whatever is answered, what was done outside is what a stopped run does.
pub fn serve<K: PartyCore, L: Link, C: Clock, O: Sink, D: Disk, J: Keeper<D>>(
    alloc: Global,
    job: Job<K>,
    link: &mut L,
    clock: &mut C,
    out: &mut O,
    keeper: &mut J,
    disk: &mut D,
) -> Result<Served, ServeFault>
    requires { J.ready keeper.old disk.old }
    ensures ok { IfOk result (λ served. HasServed K.rules (start_of job.setting job.turns job.core job.past job.commands (C.state clock.old) (L.state link.old))
        (edge (O.state out.old) (L.state link.old) (keep_state D.model J.kept keeper.old disk.old))
        (edge (O.state out.new) (L.state link.new) (keep_state D.model J.kept keeper.new disk.new))
        (LeavesFront D.model J.list_of (J.kept keeper.old disk.old) disk.old disk.new) (C.state clock.new).readings served) }
    ensures err { IfErr result (λ why. HasFaultOf K.rules (start_of job.setting job.turns job.core job.past job.commands (C.state clock.old) (L.state link.old))
        (edge (O.state out.old) (L.state link.old) (keep_state D.model J.kept keeper.old disk.old))
        (edge (O.state out.new) (L.state link.new) (keep_state D.model J.kept keeper.new disk.new))
        (LeavesFront D.model J.list_of (J.kept keeper.old disk.old) disk.old disk.new) (C.state clock.new).readings why) }
    ensures exit { IsExit K.rules (start_of job.setting job.turns job.core job.past job.commands (C.state clock.old) (L.state link.old))
        (edge (O.state out.old) (L.state link.old) (keep_state D.model J.kept keeper.old disk.old))
        (edge (O.state out.new) (L.state link.new) (keep_state D.model J.kept keeper.new disk.new)) }
{
    let Job {
        core,
        setting,
        commands,
        turns,
        past,
    } = job;
    let Ok(mut buf) = Vec::from_elem(alloc, 0u8, LONGEST_DATAGRAM) else {
        return Err(ServeFault::OutOfMemory);
    };
    match link.open(port_of(setting.base(), setting.me())) {
        Ok(()) => run(
            alloc, core, &setting, &past, commands, turns, &mut buf, link, clock, out, keeper, disk,
        ),
        Err(Failed) => Err(ServeFault::LinkFailed),
    }
}

/// What is answered at the end.
fn ended<K: PartyCore>(
    setting: &NodeSetting,
    node: &Node<K>,
    lost: u64,
) -> Result<Served, ServeFault>
    ensures ok { IfOk result (λ served. ShowsNumbers setting.now node.now lost served) }
    ensures err { IfErr result (λ why. ShowsOpen setting.now node.now why) }
{
    match setting.me() {
        Party::Replica(_) => Ok(numbers(node, lost)),
        Party::Client(_) => {
            let unanswered = node.unanswered();
            if unanswered == 0 {
                Ok(numbers(node, lost))
            } else {
                Err(ServeFault::TurnsSpent(unanswered))
            }
        }
    }
}

fn numbers<K: PartyCore>(node: &Node<K>, lost: u64) -> Served
    ensures { result ≡ record { events = node.now.events; sent = node.now.sent; lost = lost; spent = node.now.spent } }
{
    Served {
        events: node.events(),
        sent: node.sent(),
        lost,
        spent: node.spent(),
    }
}
