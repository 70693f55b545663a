//! What the positions of a chain state, one after the other.

ghost use Rattle.std.specs.Prelude.{◌≡◌, ◌+◌, ◌*◌, ◌≤◌, ◌∷◌, [], length, map, IfSome, MatchOption};
ghost use Rattle.std.specs.Option.{option_map};
ghost use Rattle.ab_wire.specs.Views.{chain_tags};
ghost use Rattle.ab_check.specs.Checks.{tag_between};
ghost use Rattle.ab_check.specs.Chains.{passed_to, said_before};
ghost use Rattle.ab_check.specs.Listing.{IsClaim, IsPassed, checked, passed_left};

use crate::chain::PassingRef;
use crate::check_ref::{CheckRef, TokenRef};
use crate::claim_ref::ClaimRef;
use crate::copied::{copy_of, none};
use ab_form::ListRef;
use ab_msg::Tag;
use ab_num::{Cluster, Party};
use ab_wire::BetweenRef;

/// Zeros, where nothing is told.
const NOTHING: &[u8; 32] = &[0; 32];

/// The positions before one that are left to be told, the nearest last, with the tags for a party.
#[derive(Clone, Copy, Debug)]
pub(crate) struct Passed<'a> {
    pub(crate) k: Cluster,
    pub(crate) link: PassingRef<'a>,
    pub(crate) position: u8,
    pub(crate) left: u8,
    pub(crate) me: Party,
    pub(crate) tags: ListRef<'a, BetweenRef<'a>>,
}

/// The first tag of one party for another.
pub(crate) fn tag_between<'a>(
    tags: ListRef<'a, BetweenRef<'a>>,
    by: Party,
    to: Party,
) -> Option<&'a Tag>
    ensures { option_map (λ tag. tag.now) result ≡ tag_between by to (chain_tags tags.entry) }
{
    'tags: for t in tags {
        if t.by == by && t.to == to {
            return Some(t.tag);
        }
    }
    None
}

/// The f + 1 positions before this one, as far as they are there.
pub(crate) fn passed_before<'a>(
    k: &Cluster,
    link: PassingRef<'a>,
    position: u8,
    me: Party,
    tags: ListRef<'a, BetweenRef<'a>>,
) -> Passed<'a>
    requires instance { 1 ≤ link.instance }
    requires position { (1 ≤ position) × (position ≤ 3 * k.now.f + 2) }
    requires short { IfSome link.reply (λ reply. length reply.now ≤ 72) }
    ensures said { passed_left result ≡ map (passed_to me (chain_tags tags.entry)) (said_before k.now.f link.entry position) }
    ensures lawful { IsPassed result }
{
    let left = (position - 1).min(k.f + 1);
    Passed {
        k: *k,
        link,
        position,
        left,
        me,
        tags,
    }
}

/// No positions.
pub(crate) fn none_passed<'a>(k: &Cluster) -> Passed<'a>
    ensures none { passed_left result ≡ [] }
    ensures lawful { IsPassed result }
{
    let link = PassingRef {
        instance: 1,
        client: 0,
        stamp: 0,
        n: 0,
        d: NOTHING,
        reply: None,
    };
    Passed {
        k: *k,
        link,
        position: 1,
        left: 0,
        me: Party::Client(0),
        tags: none(),
    }
}

/// What the next position states, and its tag.
#[tactic(auto, using(crate::proofs::ListLemmas::said_maker))]
pub(crate) fn next_passed<'a>(p: &mut Passed<'a>) -> Option<CheckRef<'a>>
    requires { IsPassed p.old }
    ensures next { MatchOption result ((passed_left p.old ≡ []) × (passed_left p.new ≡ [])) (λ s. passed_left p.old ≡ checked s ∷ passed_left p.new) }
    ensures claim { IfSome result (λ s. IsClaim s.claim) }
    ensures lawful { IsPassed p.new }
{
    if p.left == 0 {
        return None;
    }
    let r = p.k.at_position(p.link.instance, p.position - p.left);
    let tag = tag_between(copy_of(&p.tags), Party::Replica(r), p.me);
    let link = p.link;
    p.left -= 1;
    Some(CheckRef {
        claim: ClaimRef::Said { link, r },
        token: TokenRef::Tag(tag),
    })
}
