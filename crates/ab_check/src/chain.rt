//! What the positions of a chain state, and what other answers say.

ghost use Rattle.std.specs.Prelude.{◌≡◌, ◌≤◌, ◌++◌, length, IfSome};
ghost use Rattle.ab_form.specs.Formats.{u16_bytes, u64_bytes, u8_text};
ghost use Rattle.ab_num.specs.declared.party.Party.TheVariants.{Replica};
ghost use Rattle.ab_msg.specs.declared.content.Content.TheVariants.{ChainTag as ChainTagContent};
ghost use Rattle.ab_msg.specs.Claims.{spec_of};
ghost use Rattle.ab_msg.specs.Contents.{spell_content, spell_head};
ghost use Rattle.ab_content.specs.Views.{zcert};
ghost use Rattle.ab_check.specs.Chains.{said};

use crate::text::{Text, add};
use ab_content::ZcertRef;

/// What the positions of a chain state of a request; with a reply of at most 72 bytes, what its client
/// checks.
#[derive(Clone, Copy, Debug)]
pub struct PassingRef<'a> {
    pub instance: u32,
    pub client: u16,
    pub stamp: u64,
    pub n: u16,
    pub d: &'a [u8; 32],
    pub reply: Option<&'a [u8]>,
}

/// The 52 bytes of a tag along a chain.
#[tactic(auto, unfolding(ab_form::specs::Formats::u8_bytes, ab_form::specs::Formats::u16_bytes, ab_form::specs::Formats::u32_bytes, ab_form::specs::Formats::u64_bytes))]
fn passed_text(l: &PassingRef<'_>, r: u8) -> Text
    ensures { result.items ≡ spell_content (ChainTagContent (Replica r) l.now.instance l.now.client l.now.stamp l.now.n l.now.d.now) }
{
    let d = l.d;
    let mut text = Text::new();
    add(&mut text, &[4, 0]);
    add(&mut text, &u16::from(r).to_be_bytes());
    add(&mut text, &l.instance.to_be_bytes());
    add(&mut text, &l.client.to_be_bytes());
    add(&mut text, &l.stamp.to_be_bytes());
    add(&mut text, &l.n.to_be_bytes());
    add(&mut text, d);
    text
}

/// The at most 125 bytes of an answer with this code.
#[tactic(auto, unfolding(ab_form::specs::Formats::u8_bytes, ab_form::specs::Formats::u16_bytes, ab_form::specs::Formats::u32_bytes, ab_form::specs::Formats::u64_bytes))]
fn answer_text(code: u8, l: &PassingRef<'_>, r: u8, reply: &[u8]) -> Text
    requires { length reply.now ≤ 72 }
    ensures { result.items ≡ spell_head code (Replica r) l.now.instance (u16_bytes l.now.client ++ (u64_bytes l.now.stamp ++ (u16_bytes l.now.n ++ (l.now.d.now ++ u8_text reply.now)))) }
{
    let length = reply.len() as u8;
    let d = l.d;
    let mut text = Text::new();
    add(&mut text, &[code, 0]);
    add(&mut text, &u16::from(r).to_be_bytes());
    add(&mut text, &l.instance.to_be_bytes());
    add(&mut text, &l.client.to_be_bytes());
    add(&mut text, &l.stamp.to_be_bytes());
    add(&mut text, &l.n.to_be_bytes());
    add(&mut text, d);
    add(&mut text, &[length]);
    add(&mut text, reply);
    text
}

/// What replica `r` states, in bytes. They take no memory.
pub(crate) fn said_text(l: &PassingRef<'_>, r: u8) -> Text
    requires { IfSome l.now.reply (λ reply. length reply.now ≤ 72) }
    ensures { result.items ≡ spell_content (said l.now r) }
{
    match l.reply {
        Some(reply) => answer_text(3, l, r, reply),
        None => passed_text(l, r),
    }
}

/// The answer of replica `r` that a certificate has, in bytes. They take no memory.
pub(crate) fn spec_text(instance: u32, z: &ZcertRef<'_>, r: u8) -> Text
    requires { length z.now.reply.now ≤ 72 }
    ensures { result.items ≡ spell_content (spec_of instance (zcert z.now) r) }
{
    let l = PassingRef {
        instance,
        client: z.client,
        stamp: z.stamp,
        n: z.n,
        d: z.d,
        reply: None,
    };
    answer_text(13, &l, r, z.reply)
}
