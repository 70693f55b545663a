//! One party's core with all that its turns need.

ghost use Rattle.std.specs.Prelude.{◌≡◌, ◌⊎◌, ◌++◌, ◌==◌, ◌&&◌, ◌+◌, ◌≤◌, ◌<◌, drop, slice_get, MatchOption, IfOk, OnErr, OnOk, length, if◌then◌else◌, false};
ghost use Rattle.std.specs.declared.option.Option.TheVariants.{None, Some};
ghost use Rattle.ab_io.specs.Datagrams.{longest_datagram};
ghost use Rattle.ab_piece.specs.Joining.{answer_of, step_of};
ghost use Rattle.ab_loop.specs.Cores.{event_of};
ghost use Rattle.ab_loop.specs.Texts.{reply_text};
ghost use Rattle.ab_loop.specs.Edges.{LeavesFront, Tells, capped, edge, keep_state};
ghost use Rattle.ab_loop.specs.Nodes.{Follows, IsShortAnswer, Takes, with_joiner, turn_step, begin_step, command_step, reply_step, deadline_after, next_deadline, event_step, has_expired, is_done, latest, line_again, new_node, node_again, parcels_of, past_node, past_text, datagram_step, after_reply, same_timer, timer_step, trace_text, waits_after as still_waits, waits_in, without_answered as left_unanswered};
ghost use Rattle.ab_loop.specs.Past.{body_of};

use crate::fault::ServeFault;
use crate::keeping::keep;
use crate::node_setting::NodeSetting;
use crate::outside::{say, send_all};
use crate::parcel::{Parcel, count, parcels};
use crate::party_core::{Commit, NodeEventRef, PartyCore, Reaction};
use crate::past::Past;
use crate::texts::{event_line, reply_line};
use ab_disk::{Disk, Keeper};
use ab_hist::array_of;
use ab_io::{Got, Link, Sink};
use ab_num::{OutOfMemory, Party};
use ab_piece::{Joiner, Taken};
use ab_text::Items;
use arrayvec::ArrayVec;
use std::alloc::Global;
use std::marker::Model;

/// A core, what was joined for it, its deadline, the commands of a client, and counts.
#[derive(Drop)]
pub(crate) struct Node<K: PartyCore> {
    core: K,
    joiner: Joiner,
    deadline: u64,
    number: u64,
    commands: Items<ArrayVec<u8, 128>>,
    done: usize,
    commit: Option<Commit>,
    events: u64,
    sent: u64,
    spent: u64,
}

/// It is seen without the commands that are answered.
impl<K: PartyCore> Model for Node<K> {
    ghost use Rattle.std.specs.Prelude.{drop, ◌≤◌, length};
    ghost use Rattle.ab_loop.specs.Nodes.{Node as TheNode, AreOpened};

    ghost Value = { TheNode K };

    ghost view = { λ n. record {
      core = n.core;
      joiner = n.joiner;
      deadline = n.deadline;
      number = n.number;
      commands = drop n.done n.commands;
      commit = n.commit;
      events = n.events;
      sent = n.sent;
      spent = n.spent;
    } };

    ghost invariant = { λ n. (n.done ≤ length n.commands) × AreOpened n.joiner };
}

/// The later of two commits.
fn latest(old: Option<Commit>, new: Option<Commit>) -> Option<Commit>
    ensures { result ≡ latest old new }
{
    match new {
        Some(commit) => Some(commit),
        None => old,
    }
}

/// Whether a timer goes on as it was.
fn same_timer(old: Option<u64>, new: Option<u64>) -> bool
    ensures { result ≡ same_timer old new }
{
    match (old, new) {
        (None, None) => true,
        (Some(a), Some(b)) => a == b,
        (None, Some(_)) => false,
        (Some(_), None) => false,
    }
}

/// The deadline of a timer that starts now.
fn next_deadline(setting: &NodeSetting, t: u64) -> u64
    ensures { result ≡ next_deadline setting.now t }
{
    t.saturating_add(u64::from(setting.wait()))
}

/// The deadline after an event.
fn deadline_after(
    setting: &NodeSetting,
    t: u64,
    deadline: u64,
    old: Option<u64>,
    new: Option<u64>,
) -> u64
    ensures { result ≡ deadline_after setting.now t deadline old new }
{
    if same_timer(old, new) {
        deadline
    } else {
        next_deadline(setting, t)
    }
}

/// One more where it holds.
fn counted(count: u64, holds: bool) -> u64
    ensures { result ≡ (if holds then capped (count + 1) else count) }
{
    if holds {
        count.saturating_add(1)
    } else {
        count
    }
}

/// The line of an event, where a trace is wanted.
fn announce<O: Sink>(
    alloc: Global,
    setting: &NodeSetting,
    input: &NodeEventRef<'_>,
    out: &mut O,
) -> Result<(), ServeFault>
    ensures { Tells (O.state out.old) (O.state out.new) (trace_text setting.now (event_of input.now)) result }
{
    if !setting.trace() {
        return Ok(());
    }
    match event_line(alloc, setting.me(), input) {
        Ok(line) => say(out, line.as_slice()),
        Err(OutOfMemory) => Err(ServeFault::OutOfMemory),
    }
}

/// The same command.
fn copied(command: &ArrayVec<u8, 128>) -> ArrayVec<u8, 128>
    ensures { result ≡ command.now }
{
    array_of(command.as_slice())
}

/// The place after the first that is unanswered.
#[tactic(auto, using(crate::proofs::TurnLemmas::drop_next, crate::proofs::TurnLemmas::drop_end))]
fn after(commands: &[ArrayVec<u8, 128>], done: usize) -> usize
    requires { done ≤ length commands.now }
    ensures left { drop result commands.now ≡ drop 1 (drop done commands.now) }
    ensures within { result ≤ length commands.now }
{
    if done < commands.len() {
        done + 1
    } else {
        done
    }
}

/// Writes a commit's line.
fn tell<O: Sink>(alloc: Global, commit: &Commit, out: &mut O) -> Result<(), ServeFault>
    ensures { Tells (O.state out.old) (O.state out.new) (reply_text commit.now) result }
{
    match reply_line(alloc, commit) {
        Ok(line) => say(out, line.as_slice()),
        Err(OutOfMemory) => Err(ServeFault::OutOfMemory),
    }
}

/// Writes a commit's line once more, if there is one.
fn tell_again<O: Sink>(
    alloc: Global,
    commit: &Option<Commit>,
    out: &mut O,
) -> Result<(), ServeFault>
    ensures { Tells (O.state out.old) (O.state out.new) (line_again commit.now) result }
{
    match commit {
        Some(commit) => tell(alloc, commit, out),
        None => Ok(()),
    }
}

/// The place of the first command that is unanswered after an event in which this was committed.
fn after_commit(commands: &[ArrayVec<u8, 128>], done: usize, commit: &Option<Commit>) -> usize
    requires { done ≤ length commands.now }
    ensures left { drop result commands.now ≡ left_unanswered commit.now (drop done commands.now) }
    ensures within { result ≤ length commands.now }
{
    match commit {
        Some(_) => after(commands, done),
        None => done,
    }
}

/// Whether a command is unanswered after an event in which this was committed.
fn waits_after(waits: bool, input: &NodeEventRef<'_>, commit: &Option<Commit>) -> bool
    ensures { result ≡ still_waits waits (event_of input.now) commit.now }
{
    match commit {
        Some(_) => false,
        None => match input {
            NodeEventRef::Invoke(_) => true,
            NodeEventRef::Message(_) => waits,
            NodeEventRef::Timeout => waits,
        },
    }
}

impl<K: PartyCore> Node<K> {
    /// A node before its first event.
    pub(crate) fn new(
        alloc: Global,
        setting: &NodeSetting,
        t: u64,
        core: K,
        commands: Items<ArrayVec<u8, 128>>,
    ) -> Node<K>
        ensures { result ≡ new_node setting.now t core commands }
    {
        Node {
            core,
            joiner: Joiner::new(alloc),
            deadline: next_deadline(setting, t),
            number: 0,
            commands,
            done: 0,
            commit: None,
            events: 0,
            sent: 0,
            spent: 0,
        }
    }

    /// Whether this is a client whose commands are answered.
    pub(crate) fn is_done(&self, setting: &NodeSetting) -> bool
        ensures { result ≡ is_done setting.now self.now }
    {
        match setting.me() {
            Party::Replica(_) => false,
            Party::Client(_) => self.done == self.commands.as_slice().len(),
        }
    }

    /// How many commands are unanswered.
    pub(crate) fn unanswered(&self) -> u64
        ensures { result ≡ length self.now.commands }
    {
        (self.commands.as_slice().len() - self.done) as u64
    }

    /// How many events were handled.
    pub(crate) fn events(&self) -> u64
        ensures { result ≡ self.now.events }
    {
        self.events
    }

    /// How many datagrams were handed to send.
    pub(crate) fn sent(&self) -> u64
        ensures { result ≡ self.now.sent }
    {
        self.sent
    }

    /// How many events were spent.
    pub(crate) fn spent(&self) -> u64
        ensures { result ≡ self.now.spent }
    {
        self.spent
    }

    /// A copy of the first command that is unanswered.
    fn first_command(&self) -> Option<ArrayVec<u8, 128>>
        ensures { result ≡ slice_get self.now.commands 0 }
    {
        self.commands.as_slice().get(self.done).map(copied)
    }

    /// The commit that isn't printed. With it the open command goes.
    fn take_commit(&mut self) -> Option<Commit>
        ensures { MatchOption result ((self.old.commit ≡ None) × (self.new ≡ self.old))
            (λ c. (self.old.commit ≡ Some c) × (self.new ≡ after_reply self.old)) }
    {
        match self.commit.take() {
            Some(commit) => {
                self.done = after(self.commands.as_slice(), self.done);
                Some(commit)
            }
            None => None,
        }
    }

    /// Takes a datagram.
    fn join(&mut self, alloc: Global, datagram: &[u8]) -> Result<Taken, OutOfMemory>
        ensures answer { IfOk result (λ taken. answer_of taken ≡ (step_of self.old.joiner datagram.now).answer) }
        ensures short { IfOk result (λ taken. IsShortAnswer (answer_of taken)) }
        ensures node { OnOk result (self.new ≡ with_joiner (step_of self.old.joiner datagram.now).after self.old) }
    {
        self.joiner.take(alloc, datagram)
    }

    /// Whether the timer is on and its time has come.
    fn has_expired(&self, t: u64) -> bool
        ensures { result ≡ has_expired K.rules t self.now }
    {
        self.core.timer().is_some() && self.deadline <= t
    }

    /// The core handles an event at time t. All messages are cut before any is sent. Answers too whether
    /// the event is one to keep.
    #[tactic(auto, unfolding(crate::specs::Nodes::event_step))]
    fn react(
        &mut self,
        alloc: Global,
        setting: &NodeSetting,
        t: u64,
        input: &NodeEventRef<'_>,
    ) -> Result<(Vec<Parcel>, bool), OutOfMemory>
        ensures node { OnOk result (self.new ≡ (event_step K.rules setting.now t (event_of input.now) self.old).node) }
        ensures sends { IfOk result (λ r. r.0.items ≡ parcels_of setting.now self.old.number (K.rules.step self.old.core (event_of input.now)).sends) }
        ensures opened { IfOk result (λ r. r.1 ≡ (K.rules.step self.old.core (event_of input.now)).opened) }
    {
        let before = self.core.timer();
        let effects = self.core.step(alloc, input)?;
        let parcels = parcels(alloc, setting, self.number, effects.sends.as_slice())?;
        let Reaction {
            sends,
            commit,
            spent,
            opened,
        } = effects;
        self.deadline = deadline_after(setting, t, self.deadline, before, self.core.timer());
        self.number = self.number.saturating_add(sends.len() as u64);
        self.commit = latest(self.commit.take(), commit);
        self.events = counted(self.events, true);
        self.sent = self.sent.saturating_add(count(parcels.as_slice()));
        self.spent = counted(self.spent, spent);
        Ok((parcels, opened))
    }

    /// An event at time t: its line, where a trace is wanted, what the core does, its body, which is kept,
    /// and its datagrams, each handed over once. Answers how many were lost. Nothing is sent before all of
    /// it is cut and the event is kept: after a fault nothing was sent, or the node is past the event.
    #[tactic(auto, unfolding(crate::specs::Nodes::event_step))]
    fn handle<L: Link, O: Sink, D: Disk, J: Keeper<D>>(
        &mut self,
        alloc: Global,
        setting: &NodeSetting,
        t: u64,
        input: &NodeEventRef<'_>,
        link: &mut L,
        out: &mut O,
        keeper: &mut J,
        disk: &mut D,
    ) -> Result<u64, ServeFault>
        requires ready { J.ready keeper.old disk.old }
        requires short { length (body_of (event_of input.now)) ≤ 4194305 }
        ensures ready { OnOk result (J.ready keeper.new disk.new) }
        ensures follows { Follows self.new (edge (O.state out.old) (L.state link.old) (keep_state D.model J.kept keeper.old disk.old))
            (edge (O.state out.new) (L.state link.new) (keep_state D.model J.kept keeper.new disk.new))
            (LeavesFront D.model J.list_of (J.kept keeper.old disk.old) disk.old disk.new)
            (event_step K.rules setting.now t (event_of input.now) self.old) result }
        ensures cut { OnErr result (((L.state link.new).sent ≡ (L.state link.old).sent) ⊎ (self.new ≡ (event_step K.rules setting.now t (event_of input.now) self.old).node)) }
        ensures to_come { (L.state link.new).to_come ≡ (L.state link.old).to_come }
    {
        if let Err(fault) = announce(alloc, setting, input, out) {
            return Err(fault);
        }
        match self.react(alloc, setting, t, input) {
            Ok((parcels, opened)) => match keep(alloc, opened, input, keeper, disk) {
                Ok(()) => send_all(link, parcels.as_slice()),
                Err(fault) => Err(fault),
            },
            Err(OutOfMemory) => Err(ServeFault::OutOfMemory),
        }
    }

    /// The timer runs out, if it is on and its time has come.
    #[tactic(auto, unfolding(crate::specs::Nodes::timer_step))]
    fn time<L: Link, O: Sink, D: Disk, J: Keeper<D>>(
        &mut self,
        alloc: Global,
        setting: &NodeSetting,
        t: u64,
        link: &mut L,
        out: &mut O,
        keeper: &mut J,
        disk: &mut D,
    ) -> Result<u64, ServeFault>
        requires ready { J.ready keeper.old disk.old }
        ensures ready { OnOk result (J.ready keeper.new disk.new) }
        ensures follows { Follows self.new (edge (O.state out.old) (L.state link.old) (keep_state D.model J.kept keeper.old disk.old))
            (edge (O.state out.new) (L.state link.new) (keep_state D.model J.kept keeper.new disk.new))
            (LeavesFront D.model J.list_of (J.kept keeper.old disk.old) disk.old disk.new)
            (timer_step K.rules setting.now t self.old) result }
        ensures to_come { (L.state link.new).to_come ≡ (L.state link.old).to_come }
    {
        if self.has_expired(t) {
            match self.handle(
                alloc,
                setting,
                t,
                &NodeEventRef::Timeout,
                link,
                out,
                keeper,
                disk,
            ) {
                Ok(lost) => {
                    self.deadline = next_deadline(setting, t);
                    Ok(lost)
                }
                Err(fault) => Err(fault),
            }
        } else {
            Ok(0)
        }
    }

    /// A datagram, which may complete a message.
    #[tactic(auto, unfolding(crate::specs::Nodes::datagram_step))]
    fn receive<L: Link, O: Sink, D: Disk, J: Keeper<D>>(
        &mut self,
        alloc: Global,
        setting: &NodeSetting,
        t: u64,
        datagram: &[u8],
        link: &mut L,
        out: &mut O,
        keeper: &mut J,
        disk: &mut D,
    ) -> Result<u64, ServeFault>
        requires ready { J.ready keeper.old disk.old }
        ensures ready { OnOk result (J.ready keeper.new disk.new) }
        ensures follows { Follows self.new (edge (O.state out.old) (L.state link.old) (keep_state D.model J.kept keeper.old disk.old))
            (edge (O.state out.new) (L.state link.new) (keep_state D.model J.kept keeper.new disk.new))
            (LeavesFront D.model J.list_of (J.kept keeper.old disk.old) disk.old disk.new)
            (datagram_step K.rules setting.now t (Some datagram.now) self.old) result }
        ensures to_come { (L.state link.new).to_come ≡ (L.state link.old).to_come }
    {
        match self.join(alloc, datagram) {
            Ok(Taken::Whole(message)) => {
                self.handle(
                    alloc,
                    setting,
                    t,
                    &NodeEventRef::Message(message.as_slice()),
                    link,
                    out,
                    keeper,
                    disk,
                )
            }
            Ok(Taken::More) => Ok(0),
            Ok(Taken::Dropped(_)) => Ok(0),
            Err(OutOfMemory) => Err(ServeFault::OutOfMemory),
        }
    }

    /// The next command, if there is one.
    #[tactic(auto, unfolding(crate::specs::Nodes::command_step))]
    fn ask<L: Link, O: Sink, D: Disk, J: Keeper<D>>(
        &mut self,
        alloc: Global,
        setting: &NodeSetting,
        t: u64,
        link: &mut L,
        out: &mut O,
        keeper: &mut J,
        disk: &mut D,
    ) -> Result<u64, ServeFault>
        requires ready { J.ready keeper.old disk.old }
        ensures ready { OnOk result (J.ready keeper.new disk.new) }
        ensures follows { Follows self.new (edge (O.state out.old) (L.state link.old) (keep_state D.model J.kept keeper.old disk.old))
            (edge (O.state out.new) (L.state link.new) (keep_state D.model J.kept keeper.new disk.new))
            (LeavesFront D.model J.list_of (J.kept keeper.old disk.old) disk.old disk.new)
            (command_step K.rules setting.now t self.old) result }
        ensures to_come { (L.state link.new).to_come ≡ (L.state link.old).to_come }
    {
        match self.first_command() {
            Some(command) => self.handle(
                alloc,
                setting,
                t,
                &NodeEventRef::Invoke(command.as_slice()),
                link,
                out,
                keeper,
                disk,
            ),
            None => Ok(0),
        }
    }

    /// A commit is printed, and the next command invoked.
    #[tactic(auto, unfolding(crate::specs::Nodes::reply_step))]
    fn answer<L: Link, O: Sink, D: Disk, J: Keeper<D>>(
        &mut self,
        alloc: Global,
        setting: &NodeSetting,
        t: u64,
        link: &mut L,
        out: &mut O,
        keeper: &mut J,
        disk: &mut D,
    ) -> Result<u64, ServeFault>
        requires ready { J.ready keeper.old disk.old }
        ensures ready { OnOk result (J.ready keeper.new disk.new) }
        ensures follows { Follows self.new (edge (O.state out.old) (L.state link.old) (keep_state D.model J.kept keeper.old disk.old))
            (edge (O.state out.new) (L.state link.new) (keep_state D.model J.kept keeper.new disk.new))
            (LeavesFront D.model J.list_of (J.kept keeper.old disk.old) disk.old disk.new)
            (reply_step K.rules setting.now t self.old) result }
        ensures to_come { (L.state link.new).to_come ≡ (L.state link.old).to_come }
    {
        match self.take_commit() {
            Some(commit) => match tell(alloc, &commit, out) {
                Ok(()) => self.ask(alloc, setting, t, link, out, keeper, disk),
                Err(fault) => Err(fault),
            },
            None => Ok(0),
        }
    }

    /// What the core did in an event of an earlier run is done once more at time t, and nothing of it is
    /// sent. Answers what was committed.
    fn react_again(
        &mut self,
        alloc: Global,
        setting: &NodeSetting,
        t: u64,
        input: &NodeEventRef<'_>,
    ) -> Result<Option<Commit>, OutOfMemory>
        ensures node { OnOk result (self.new ≡ node_again K.rules setting.now t self.old (K.rules.step self.old.core (event_of input.now))) }
        ensures commit { IfOk result (λ c. c ≡ (K.rules.step self.old.core (event_of input.now)).commit) }
    {
        let before = self.core.timer();
        let effects = self.core.step(alloc, input)?;
        let Reaction {
            sends,
            commit,
            spent,
            opened: _,
        } = effects;
        self.deadline = deadline_after(setting, t, self.deadline, before, self.core.timer());
        self.number = self.number.saturating_add(sends.len() as u64);
        self.done = after_commit(self.commands.as_slice(), self.done, &commit);
        self.events = counted(self.events, true);
        self.spent = counted(self.spent, spent);
        Ok(commit)
    }

    /// An event of an earlier run at time t: its line once more, and that of its commit. Answers whether a
    /// command is unanswered after it.
    fn handle_again<O: Sink>(
        &mut self,
        alloc: Global,
        setting: &NodeSetting,
        t: u64,
        input: &NodeEventRef<'_>,
        waits: bool,
        out: &mut O,
    ) -> Result<bool, ServeFault>
        ensures node { OnOk result (self.new ≡ node_again K.rules setting.now t self.old (K.rules.step self.old.core (event_of input.now))) }
        ensures waits { IfOk result (λ w. w ≡ still_waits waits (event_of input.now) (K.rules.step self.old.core (event_of input.now)).commit) }
        ensures tells { Tells (O.state out.old) (O.state out.new)
            (trace_text setting.now (event_of input.now) ++ line_again (K.rules.step self.old.core (event_of input.now)).commit) result }
    {
        if let Err(fault) = announce(alloc, setting, input, out) {
            return Err(fault);
        }
        match self.react_again(alloc, setting, t, input) {
            Ok(commit) => match tell_again(alloc, &commit, out) {
                Ok(()) => Ok(waits_after(waits, input, &commit)),
                Err(fault) => Err(fault),
            },
            Err(OutOfMemory) => Err(ServeFault::OutOfMemory),
        }
    }

    /// The events of earlier runs at time t. Answers whether the last command that was invoked in them is
    /// unanswered.
    fn restore<O: Sink>(
        &mut self,
        alloc: Global,
        setting: &NodeSetting,
        t: u64,
        past: &Past,
        out: &mut O,
    ) -> Result<bool, ServeFault>
        ensures node { OnOk result (self.new ≡ past_node K.rules setting.now t past.now self.old) }
        ensures waits { IfOk result (λ w. w ≡ waits_in K.rules self.old.core false past.now) }
        ensures tells { Tells (O.state out.old) (O.state out.new) (past_text K.rules setting.now self.old.core past.now) result }
    {
        let mut waits = false;
        'events: for i in 0..past.len() {
            let input = past.get(i);
            match self.handle_again(alloc, setting, t, &input, waits, out) {
                Ok(still) => waits = still,
                Err(fault) => return Err(fault),
            }
        }
        Ok(waits)
    }

    /// The events of earlier runs, and then the next command, but for one that was invoked in them and is
    /// unanswered.
    #[tactic(auto, unfolding(crate::specs::Nodes::begin_step))]
    pub(crate) fn begin<L: Link, O: Sink, D: Disk, J: Keeper<D>>(
        &mut self,
        alloc: Global,
        setting: &NodeSetting,
        t: u64,
        past: &Past,
        link: &mut L,
        out: &mut O,
        keeper: &mut J,
        disk: &mut D,
    ) -> Result<u64, ServeFault>
        requires ready { J.ready keeper.old disk.old }
        ensures ready { OnOk result (J.ready keeper.new disk.new) }
        ensures follows { Follows self.new (edge (O.state out.old) (L.state link.old) (keep_state D.model J.kept keeper.old disk.old))
            (edge (O.state out.new) (L.state link.new) (keep_state D.model J.kept keeper.new disk.new))
            (LeavesFront D.model J.list_of (J.kept keeper.old disk.old) disk.old disk.new)
            (begin_step K.rules setting.now t past.now self.old) result }
        ensures to_come { (L.state link.new).to_come ≡ (L.state link.old).to_come }
    {
        match self.restore(alloc, setting, t, past, out) {
            Ok(true) => Ok(0),
            Ok(false) => self.ask(alloc, setting, t, link, out, keeper, disk),
            Err(fault) => Err(fault),
        }
    }

    /// What the link gives.
    fn take<L: Link, O: Sink, D: Disk, J: Keeper<D>>(
        &mut self,
        alloc: Global,
        setting: &NodeSetting,
        t: u64,
        buf: &mut [u8],
        link: &mut L,
        out: &mut O,
        keeper: &mut J,
        disk: &mut D,
    ) -> Result<u64, ServeFault>
        requires buf { longest_datagram ≤ length buf.old }
        requires ready { J.ready keeper.old disk.old }
        ensures ready { OnOk result (J.ready keeper.new disk.new) }
        ensures takes { Takes (λ got. datagram_step K.rules setting.now t got self.old) self.new
            (edge (O.state out.old) (L.state link.old) (keep_state D.model J.kept keeper.old disk.old))
            (edge (O.state out.new) (L.state link.new) (keep_state D.model J.kept keeper.new disk.new))
            (LeavesFront D.model J.list_of (J.kept keeper.old disk.old) disk.old disk.new) result }
    {
        match link.recv(buf, setting.wait()) {
            Got::Bytes(n) => self.receive(alloc, setting, t, &buf[..n], link, out, keeper, disk),
            Got::Quiet => Ok(0),
            Got::Failed => Err(ServeFault::LinkFailed),
        }
    }

    /// One turn: the clock's reading t, the timer, the link, the message, the reply. Answers how many
    /// datagrams were lost.
    pub(crate) fn turn<L: Link, O: Sink, D: Disk, J: Keeper<D>>(
        &mut self,
        alloc: Global,
        setting: &NodeSetting,
        t: u64,
        buf: &mut [u8],
        link: &mut L,
        out: &mut O,
        keeper: &mut J,
        disk: &mut D,
    ) -> Result<u64, ServeFault>
        requires buf { longest_datagram ≤ length buf.old }
        requires ready { J.ready keeper.old disk.old }
        ensures ready { OnOk result (J.ready keeper.new disk.new) }
        ensures takes { Takes (λ got. turn_step K.rules setting.now (record { reading = t; got = got }) self.old) self.new
            (edge (O.state out.old) (L.state link.old) (keep_state D.model J.kept keeper.old disk.old))
            (edge (O.state out.new) (L.state link.new) (keep_state D.model J.kept keeper.new disk.new))
            (LeavesFront D.model J.list_of (J.kept keeper.old disk.old) disk.old disk.new) result }
    {
        match self.time(alloc, setting, t, link, out, keeper, disk) {
            Ok(first) => match self.take(alloc, setting, t, buf, link, out, keeper, disk) {
                Ok(second) => match self.answer(alloc, setting, t, link, out, keeper, disk) {
                    Ok(third) => Ok(first.saturating_add(second).saturating_add(third)),
                    Err(fault) => Err(fault),
                },
                Err(fault) => Err(fault),
            },
            Err(fault) => Err(fault),
        }
    }
}
