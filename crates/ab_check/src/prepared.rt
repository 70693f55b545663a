//! The PREPAREs behind a view change, one after the other.

ghost use Rattle.std.specs.Prelude.{◌≡◌, ◌+◌, ◌≤◌, ◌<◌, ◌∷◌, [], length, IfSome, MatchBool, MatchOption};
ghost use Rattle.ab_form.specs.Readers.{listed};
ghost use Rattle.ab_msg.specs.Claims.{instance_of};
ghost use Rattle.ab_msg.specs.Certs.{entries_of};
ghost use Rattle.ab_check.specs.Checks.{slots_checks};
ghost use Rattle.ab_msg.specs.Contents.{IsChange};
ghost use Rattle.ab_content.specs.Views.{content as shown};
ghost use Rattle.ab_content.specs.Rows.{entry_at};
ghost use Rattle.ab_content.specs.Parts.{signer_at};
ghost use Rattle.ab_wire.specs.Changes.{prepares_at};
ghost use Rattle.ab_check.specs.Listing.{IsClaim, IsPrepared, checked, prepared_left};

use crate::check_ref::{CheckRef, TokenRef};
use crate::claim_ref::ClaimRef;
use crate::copied::{copy_of, none};
use ab_content::{ContentRef, EntryRef, SignerRef};
use ab_form::ListRef;
use ab_wire::PreparesRef;

/// Zeros, where there is no slot yet.
const NOTHING: &[u8; 32] = &[0; 32];

/// Those who signed the PREPARE of one slot that are left to be told, and the slots behind it.
#[derive(Clone, Copy, Debug)]
pub(crate) struct PreparedRef<'a> {
    pub(crate) instance: u32,
    pub(crate) view: u32,
    pub(crate) slot: u8,
    pub(crate) x: &'a [u8; 32],
    pub(crate) by: ListRef<'a, SignerRef<'a>>,
    pub(crate) next: u8,
    pub(crate) entries: ListRef<'a, EntryRef<'a>>,
    pub(crate) prepares: ListRef<'a, PreparesRef<'a>>,
}

/// The PREPAREs of all slots.
pub(crate) fn prepared_in<'a>(
    instance: u32,
    entries: ListRef<'a, EntryRef<'a>>,
    prepares: ListRef<'a, PreparesRef<'a>>,
) -> PreparedRef<'a>
    requires { length (listed entry_at entries.count entries.bytes.now) ≤ 255 }
    ensures claimed { prepared_left result ≡ slots_checks instance 0 (listed entry_at entries.entry.count entries.entry.bytes.now) (listed prepares_at prepares.entry.count prepares.entry.bytes.now) }
    ensures lawful { IsPrepared result }
{
    PreparedRef {
        instance,
        view: 0,
        slot: 0,
        x: NOTHING,
        by: none(),
        next: 0,
        entries,
        prepares,
    }
}

/// No PREPAREs.
pub(crate) fn none_prepared<'a>() -> PreparedRef<'a>
    ensures none { prepared_left result ≡ [] }
    ensures lawful { IsPrepared result }
{
    prepared_in(1, none(), none())
}

/// The PREPAREs that stand behind a content.
pub(crate) fn prepared_of<'a>(
    content: &ContentRef<'a>,
    prepares: ListRef<'a, PreparesRef<'a>>,
) -> PreparedRef<'a>
    requires { IsChange (shown content.now) }
    ensures claimed { prepared_left result ≡ slots_checks (instance_of (shown content.now)) 0 (entries_of (shown content.now)) (listed prepares_at prepares.entry.count prepares.entry.bytes.now) }
    ensures lawful { IsPrepared result }
{
    match content {
        ContentRef::ViewChange {
            instance,
            entries,
            ..
        } => prepared_in(*instance, copy_of(entries), prepares),
        _ => none_prepared(),
    }
}

/// Goes on to the next slot, if there is one.
fn to_next_slot<'a>(p: &mut PreparedRef<'a>) -> bool
    requires lawful { IsPrepared p.old }
    requires none { listed signer_at p.old.by.count p.old.by.bytes.now ≡ [] }
    ensures next { MatchBool result ((prepared_left p.new ≡ prepared_left p.old) × (length (listed entry_at p.new.entries.count p.new.entries.bytes.now) < length (listed entry_at p.old.entries.count p.old.entries.bytes.now))) ((prepared_left p.old ≡ []) × (prepared_left p.new ≡ [])) }
    ensures lawful { IsPrepared p.new }
{
    match p.entries.next() {
        Some(e) => match p.prepares.next() {
            Some(s) => {
                p.view = e.view;
                p.slot = p.next;
                p.x = e.x;
                p.by = s.by;
                p.next += 1;
                true
            }
            None => false,
        },
        None => false,
    }
}

/// The next PREPARE.
pub(crate) fn next_prepared<'a>(p: &mut PreparedRef<'a>) -> Option<CheckRef<'a>>
    requires { IsPrepared p.old }
    ensures next { MatchOption result ((prepared_left p.old ≡ []) × (prepared_left p.new ≡ [])) (λ s. prepared_left p.old ≡ checked s ∷ prepared_left p.new) }
    ensures claim { IfSome result (λ s. IsClaim s.claim) }
    ensures lawful { IsPrepared p.new }
{
    match p.by.next() {
        Some(s) => Some(CheckRef {
            claim: ClaimRef::Prepared {
                replica: s.replica,
                instance: p.instance,
                view: p.view,
                slot: p.slot,
                x: p.x,
            },
            token: TokenRef::Sig(s.sig),
        }),
        None => {
            if to_next_slot(p) {
                next_prepared(p)
            } else {
                None
            }
        }
    }
}
