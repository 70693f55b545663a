//! The text that sets up a node.

ghost use Rattle.std.specs.Prelude.{◌≡◌, ◌<◌, ◌^◌, ◌+◌, ◌↔◌, MatchOption, None, Some, IsTrue, codes, [], length, map};
ghost use Rattle.ab_num.specs.declared.party.Party.{Party as TheParty};
ghost use Rattle.ab_text.specs.Lines.{lines_of};
ghost use Rattle.ab_key_text.specs.Lines.{Gives};
ghost use Rattle.ab_key_text.specs.Nodes.{command_in, commands_at, commands_in, is_command, is_printable, node_in, node_of};
ghost use Rattle.ab_key_text.specs.Reading.{ended};

use crate::fault::NodeFault;
use crate::keys::PartyKeys;
use crate::reading::keys_at;
use ab_num::Party;
use ab_text::{Items, after, next_line};
use arrayvec::ArrayVec;
use std::alloc::Global;

/// The commands that a node makes, each of 1 to 128 bytes.
pub type Commands = Items<ArrayVec<u8, 128>>;

/// Whether each byte is printable.
fn is_printable(text: &[u8]) -> bool
    ensures { result ≡ is_printable text.now }
{
    text.iter().all(|b| *b >= 0x20 && *b <= 0x7e)
}

/// Whether a text is a command: 1 to 128 bytes, each printable.
fn is_command(text: &[u8]) -> bool
    ensures { result ≡ is_command text.now }
{
    if text.is_empty() || text.len() > 128 {
        return false;
    }
    is_printable(text)
}

/// The command of a line, where the party makes commands.
fn command_in(me: Party, line: &[u8]) -> Option<ArrayVec<u8, 128>>
    ensures { MatchOption result (command_in me line.now ≡ None) (λ v. command_in me line.now ≡ Some v.items) }
{
    match me {
        Party::Replica(_) => None,
        Party::Client(_) => command_after(line),
    }
}

/// The command of a client's line.
fn command_after(line: &[u8]) -> Option<ArrayVec<u8, 128>>
    ensures { MatchOption result (command_in (TheParty.Client 0) line.now ≡ None) (λ v. command_in (TheParty.Client 0) line.now ≡ Some v.items) }
{
    let text = after(line, b"do ")?;
    if !is_command(text) {
        return None;
    }
    let mut command = ArrayVec::new();
    match command.try_extend_from_slice(text) {
        Ok(()) => Some(command),
        Err(_) => unreachable!(),
    }
}

/// Whether the line is the last one.
fn is_end(line: &[u8]) -> bool
    ensures { IsTrue result ↔ (line.now ≡ codes "end") }
{
    line == b"end".as_slice()
}

/// The commands, where the text ends at line `n`.
fn ended(commands: Commands, text: &[u8], n: u32) -> Result<Commands, NodeFault>
    ensures { Gives (λ cs. map (λ c. c.items) cs) result (ended (map (λ c. c.items) commands) n (lines_of text.now)) }
{
    match next_line(text) {
        None => Ok(commands),
        Some(_) => Err(NodeFault::BadLine(n)),
    }
}

/// The commands of a party from line `first` on, and the end.
fn commands_at(alloc: Global, me: Party, text: &[u8], first: u32) -> Result<Commands, NodeFault>
    requires { first + length text.now < 2 ^ 32 }
    ensures { Gives (λ cs. map (λ c. c.items) cs) result (commands_at me [] first (lines_of text.now)) }
{
    let mut commands = Items::new(alloc);
    let mut rest = text;
    let mut n = first;
    while let Some((line, behind)) = next_line(rest) {
        if is_end(line) {
            return ended(commands, behind, n + 1);
        }
        match command_in(me, line) {
            None => return Err(NodeFault::BadLine(n)),
            Some(command) => commands.push(command)?,
        }
        rest = behind;
        n += 1;
    }
    Err(NodeFault::NoEnd(n))
}

/// The commands that a text spells which has no keys: a client's commands, and the end. Faults are as in a node's text.
#[tactic(auto, unfolding(crate::specs::Nodes::commands_in))]
pub fn read_commands(alloc: Global, text: &[u8]) -> Result<Commands, NodeFault>
    requires { length text.now < 2 ^ 31 }
    ensures { Gives (λ cs. map (λ c. c.items) cs) result (commands_in (lines_of text.now)) }
{
    commands_at(alloc, Party::Client(0), text, 1)
}

/// The keys and commands that a node's text spells. A bad line is the first that isn't as stated; where
/// the text ends before its end, that line is missing.
#[tactic(auto, unfolding(crate::specs::Nodes::node_in))]
pub fn read_node(alloc: Global, text: &[u8]) -> Result<(PartyKeys, Commands), NodeFault>
    requires { length text.now < 2 ^ 31 }
    ensures { Gives (λ p. node_of p.0 (map (λ c. c.items) p.1)) result (node_in (lines_of text.now)) }
{
    let keys = keys_at(alloc, text)?;
    let commands = commands_at(alloc, keys.value.me(), keys.rest, keys.next)?;
    Ok((keys.value, commands))
}
