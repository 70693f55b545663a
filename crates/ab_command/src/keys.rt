//! The command `keys`.

ghost use Rattle.std.specs.Prelude.{◌≡◌, IfOk};
ghost use Rattle.ab_command.specs.Commands.{key_text};

use ab_key_text::PartyKeys;
use ab_num::OutOfMemory;
use ab_words::KeysCommand;
use std::alloc::Global;

/// The text of the keys that are asked for.
pub(crate) fn key_text(alloc: Global, asked: &KeysCommand) -> Result<Vec<u8>, OutOfMemory>
    ensures { IfOk result (λ v. v.items ≡ key_text asked.now) }
{
    let keys = PartyKeys::derive(
        alloc,
        asked.cluster(),
        asked.service(),
        asked.scheme(),
        asked.seed(),
        asked.party(),
    )?;
    keys.text(alloc)
}
