//! The links of histories and lists, and the history that came last.

ghost use Rattle.std.specs.Prelude.{◌≡◌, [], drop, IsTrue, Some, IfOk, OnOk, OnErr};
ghost use Rattle.ab_links.specs.Links.{any_collides, keep_links, links_along, links_of};
ghost use Rattle.ab_links.specs.Recalls.{Recalls};

use crate::links::Links;
use ab_hist::History;
use ab_num::OutOfMemory;
use ab_trim::Trimmed;
use std::alloc::Global;
use std::marker::Model;

/// Links, and the history whose links were kept last from its first entry on: where it comes again, it is compared
/// and not looked up entry by entry.
#[derive(Drop)]
pub(crate) struct Recall {
    links: Links,
    last: Option<History>,
}

/// It is seen as the links.
impl Model for Recall {
    ghost use Rattle.std.specs.Prelude.{List};
    ghost use Rattle.ab_links.specs.Links.{DigestLink};
    ghost use Rattle.ab_links.specs.Recalls.{Recalls};

    ghost Value = { List DigestLink };

    ghost view = { λ a. a.links };

    ghost invariant = { λ a. Recalls a.links a.last };
}

/// Whether it is that history.
fn is_last(last: &Option<History>, history: &History) -> bool
    ensures { IsTrue result → last.now ≡ Some history.now }
{
    match last {
        Some(last) => last.is_equal(history),
        None => false,
    }
}

/// Keeps the links of the entries behind the first `from`, and answers whether one of them shows two beginnings of
/// histories with one digest.
fn add(
    links: &mut Links,
    last: &mut Option<History>,
    alloc: Global,
    history: &History,
    from: usize,
) -> Result<bool, OutOfMemory>
    requires { Recalls links.old last.old }
    ensures recalls { Recalls links.new last.new }
    ensures answer { IfOk result (λ found. found ≡ any_collides links.old (drop from (links_of history.now))) }
    ensures ok { OnOk result (links.new ≡ keep_links links.old (drop from (links_of history.now))) }
{
    if from > 0 {
        return links.add(history, from);
    }
    if is_last(last, history) {
        return Ok(false);
    }
    let copy = history.copy(alloc)?;
    let found = links.add(history, 0)?;
    if !found {
        *last = Some(copy);
    }
    Ok(found)
}

impl Recall {
    /// No links.
    pub(crate) fn new(alloc: Global) -> Recall
        ensures { result ≡ [] }
    {
        Recall {
            links: Links::new(alloc),
            last: None,
        }
    }

    /// Keeps the links of the entries behind the first `from`, and answers whether one of them shows
    /// two beginnings of histories with one digest.
    pub(crate) fn add(
        &mut self,
        alloc: Global,
        history: &History,
        from: usize,
    ) -> Result<bool, OutOfMemory>
        ensures answer { IfOk result (λ found. found ≡ any_collides self.old (drop from (links_of history.now))) }
        ensures ok { OnOk result (self.new ≡ keep_links self.old (drop from (links_of history.now))) }
    {
        add(&mut self.links, &mut self.last, alloc, history, from)
    }

    /// Keeps the links along a list, and answers whether one of them shows two beginnings with one
    /// digest.
    pub(crate) fn add_list(&mut self, list: &Trimmed) -> Result<bool, OutOfMemory>
        ensures answer { IfOk result (λ found. found ≡ any_collides self.old (links_along list.now.list)) }
        ensures ok { OnOk result (self.new ≡ keep_links self.old (links_along list.now.list)) }
        ensures err { OnErr result (self.new ≡ self.old) }
    {
        self.links.add_list(list)
    }
}
