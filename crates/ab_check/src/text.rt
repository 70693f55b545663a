//! Contents that stand in no bytes, as the bytes over which they are tagged or signed. They take no
//! memory.

ghost use Rattle.std.specs.Prelude.{◌≡◌, ◌+◌, ◌≤◌, ◌++◌, length};
ghost use Rattle.ab_num.specs.declared.party.Party.TheVariants.{Replica};
ghost use Rattle.ab_msg.specs.declared.content.Content.TheVariants.{Prepare as PrepareContent};
ghost use Rattle.ab_msg.specs.Claims.{asked};
ghost use Rattle.ab_msg.specs.Contents.{spell_content};
ghost use Rattle.ab_content.specs.Views.{request};

use ab_content::RequestRef;
use arrayvec::ArrayVec;

/// The bytes of a short content.
pub type Text = ArrayVec<u8, 160>;

/// Adds bytes, for which there is room.
pub(crate) fn add(text: &mut Text, bytes: &[u8])
    requires { length text.old.items + length bytes.now ≤ 160 }
    ensures { text.new.items ≡ text.old.items ++ bytes.now }
{
    match text.try_extend_from_slice(bytes) {
        Ok(()) => {}
        Err(_) => unreachable!(),
    }
}

/// The 45 bytes of a PREPARE by a replica.
#[tactic(auto, unfolding(ab_form::specs::Formats::u8_bytes, ab_form::specs::Formats::u16_bytes, ab_form::specs::Formats::u32_bytes))]
pub(crate) fn prepare_text(replica: u8, instance: u32, view: u32, slot: u8, x: &[u8; 32]) -> Text
    ensures { result.items ≡ spell_content (PrepareContent (Replica replica) instance view slot x.now) }
{
    let mut text = Text::new();
    add(&mut text, &[8, 0]);
    add(&mut text, &u16::from(replica).to_be_bytes());
    add(&mut text, &instance.to_be_bytes());
    add(&mut text, &view.to_be_bytes());
    add(&mut text, &[slot]);
    add(&mut text, x);
    text
}

/// The at most 148 bytes by which a client states its request.
#[tactic(auto, unfolding(ab_form::specs::Formats::u8_bytes, ab_form::specs::Formats::u16_bytes, ab_form::specs::Formats::u32_bytes, ab_form::specs::Formats::u64_bytes))]
pub(crate) fn request_text(instance: u32, m: &RequestRef<'_>) -> Text
    requires { length m.now.command.now ≤ 128 }
    ensures { result.items ≡ spell_content (asked instance (request m.now)) }
{
    let length = m.command.len() as u16;
    let mut text = Text::new();
    add(&mut text, &[1, 1]);
    add(&mut text, &m.client.to_be_bytes());
    add(&mut text, &instance.to_be_bytes());
    add(&mut text, &m.client.to_be_bytes());
    add(&mut text, &m.stamp.to_be_bytes());
    add(&mut text, &length.to_be_bytes());
    add(&mut text, m.command);
    text
}
