//! Which tags a position passes on.

ghost use Rattle.std.specs.Prelude.{◌≡◌, ◌+◌, ◌*◌, ◌≤◌, [], ◌∷◌, ◌++◌, not, ◌&&◌, if◌then◌else◌, map, IfOk, OnOk};
ghost use Rattle.std.specs.List.{list_any};
ghost use Rattle.ab_wire.specs.Views.{chain_tags, tags as tags_of};
ghost use Rattle.ab_chain.specs.Tags.{by_client, is_for_later, passed_on, passes_between, place_of, same_pair};

use ab_form::ListRef;
use ab_msg::{ChainTags, TagBetween};
use ab_num::{Cluster, OutOfMemory, Party};
use ab_wire::{BetweenRef, TagRef};
use std::alloc::Global;

/// A position in the chain of an instance, with the client of the request that goes along it.
#[derive(Clone, Copy)]
pub(crate) struct Route {
    pub(crate) cluster: Cluster,
    pub(crate) instance: u32,
    pub(crate) client: u16,
    pub(crate) position: u8,
    pub(crate) ghost begun: { 1 ≤ instance },
}

/// Whether there is a tag of the same maker for the same receiver.
fn has_pair(kept: &[TagBetween], t: &TagBetween) -> bool
    ensures { result ≡ list_any (same_pair t.now) kept.now }
{
    kept.iter()
        .any(|s| s.by.is_same(t.by) && s.to.is_same(t.to))
}

/// Whether a position passes on the tag of one place for another.
fn passes_between(f: u8, p: u8, maker: Option<u8>, receiver: Option<u8>) -> bool
    ensures { result ≡ passes_between f p maker receiver }
{
    match maker {
        Some(q) => match receiver {
            Some(t) => q < p && p < t && u16::from(t) <= u16::from(q) + u16::from(f) + 1,
            None => false,
        },
        None => false,
    }
}

impl Route {
    /// Where a party stands along the chain; the client of the request stands at the given place.
    fn place_of(&self, place: u8, party: Party) -> Option<u8>
        ensures { result ≡ place_of self.now.cluster.f self.now.instance self.now.client place party }
    {
        match party {
            Party::Replica(r) => {
                if r < self.cluster.replicas() {
                    Some(self.cluster.position_of(self.instance, r))
                } else {
                    None
                }
            }
            Party::Client(c) => { if c == self.client { Some(place) } else { None } }
        }
    }

    /// Whether a tag is one of a place before for a place behind.
    fn is_for_later(&self, t: &TagBetween) -> bool
        ensures { result ≡ is_for_later self.now.cluster.f self.now.instance self.now.client self.now.position t.now }
    {
        let last = self.cluster.replicas() + 1;
        let maker = self.place_of(0, t.by);
        let receiver = self.place_of(last, t.to);
        passes_between(self.cluster.f, self.position, maker, receiver)
    }

    /// Keeps a tag, if it is to be passed on and none of its pair is kept yet.
    fn keep(&self, kept: &mut Vec<TagBetween>, t: TagBetween) -> Result<(), OutOfMemory>
        ensures { OnOk result (kept.new.items ≡ (if is_for_later self.now.cluster.f self.now.instance self.now.client self.now.position t && not (list_any (same_pair t) kept.old.items) then kept.old.items ++ t ∷ [] else kept.old.items)) }
    {
        if self.is_for_later(&t) && !has_pair(kept, &t) {
            kept.push(t)?;
        }
        Ok(())
    }

    /// The tags of a CHAIN that are passed on.
    pub(crate) fn passed_on<'a>(
        &self,
        alloc: Global,
        tags: ListRef<'a, BetweenRef<'a>>,
    ) -> Result<ChainTags, OutOfMemory>
        ensures { IfOk result (λ kept. kept ≡ passed_on self.now.cluster.f self.now.instance self.now.client self.now.position (chain_tags tags.entry)) }
    {
        let mut kept = Vec::new(alloc);
        'tags: for t in tags {
            let tag = TagBetween {
                by: t.by,
                to: t.to,
                tag: *t.tag,
            };
            self.keep(&mut kept, tag)?;
        }
        Ok(ChainTags::of(kept))
    }

    /// The client's tags in a REQ that are passed on.
    pub(crate) fn of_client<'a>(
        &self,
        alloc: Global,
        tags: ListRef<'a, TagRef<'a>>,
    ) -> Result<ChainTags, OutOfMemory>
        ensures { IfOk result (λ kept. kept ≡ passed_on self.now.cluster.f self.now.instance self.now.client self.now.position (map (by_client self.now.client) (tags_of tags.entry))) }
    {
        let mut kept = Vec::new(alloc);
        'tags: for t in tags {
            let tag = TagBetween {
                by: Party::Client(self.client),
                to: Party::Replica(t.replica),
                tag: *t.tag,
            };
            self.keep(&mut kept, tag)?;
        }
        Ok(ChainTags::of(kept))
    }
}
