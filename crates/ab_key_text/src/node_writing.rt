//! The text that sets up a node, as it is written.

ghost use Rattle.std.specs.Prelude.{◌≡◌, ◌++◌, ◌∷◌, [], IfOk, OnOk, map};
ghost use Rattle.ab_key_text.specs.Nodes.{command_line, command_lines, node_lines, node_of};
ghost use Rattle.ab_text.specs.Texts.{text_of};

use crate::keys::PartyKeys;
use ab_num::OutOfMemory;
use arrayvec::ArrayVec;
use std::alloc::Global;

/// Adds the line of a command.
fn add_command(out: &mut Vec<u8>, command: &[u8]) -> Result<(), OutOfMemory>
    ensures { OnOk result (out.new.items ≡ out.old.items ++ text_of (command_line command.now ∷ [])) }
{
    out.extend_from_slice(b"do ")?;
    out.extend_from_slice(command)?;
    out.push(b'\n')?;
    Ok(())
}

/// Adds the lines of commands, and the end.
fn add_commands(out: &mut Vec<u8>, commands: &[ArrayVec<u8, 128>]) -> Result<(), OutOfMemory>
    ensures { OnOk result (out.new.items ≡ out.old.items ++ text_of (command_lines (map (λ c. c.items) commands.now))) }
{
    for command in commands {
        add_command(out, command.as_slice())?;
    }
    out.extend_from_slice(b"end\n")?;
    Ok(())
}

/// The text that sets up the node of these keys with these commands.
pub fn node_text(
    alloc: Global,
    keys: &PartyKeys,
    commands: &[ArrayVec<u8, 128>],
) -> Result<Vec<u8>, OutOfMemory>
    ensures { IfOk result (λ v. v.items ≡ text_of (node_lines (node_of keys.now (map (λ c. c.items) commands.now)))) }
{
    let mut out = keys.text(alloc)?;
    add_commands(&mut out, commands)?;
    Ok(out)
}
