//! What a program keeps of correct parties to tell which premise is broken first.

ghost use Rattle.std.specs.Prelude.{◌≡◌, ◌++◌, ◌∷◌, All, IfOk, OnOk, OnErr, IsTrue, map, flat_map};
ghost use Rattle.std.specs.List.{fold};
ghost use Rattle.std.specs.Option.{option_map};
ghost use Rattle.ab_keys.specs.Keys.{is_party};
ghost use Rattle.ab_links.specs.Digested.{any_found, history as history_item, keep_items};
ghost use Rattle.ab_msg.specs.Claims.{claims, stated};
ghost use Rattle.ab_msg.specs.Contents.{spell_content};
ghost use Rattle.ab_run.specs.Forms.{IsDraftOf};
ghost use Rattle.ab_run.specs.Setups.{RunSetup};
ghost use Rattle.ab_run.specs.Stages.{first_of, forged_in, forgery, keep};
ghost use Rattle.ab_premise.specs.Collisions.{first_collision, first_items, first_watch, message_items};
ghost use Rattle.ab_premise.specs.Premises.{faulty_premise, first_premise, passing};
ghost use Rattle.ab_premise.specs.Watching.{first_watching};

use crate::breach::{Collision, Forgery};
use crate::forging::forged_in;
use crate::line::{first_collision, first_forgery, premise};
use crate::looking::{look_at_claims, look_at_message, look_at_one};
use crate::statements::Statements;
use crate::stating::state;
use ab_hist::History;
use ab_links::Digests;
use ab_msg::Out;
use ab_num::{Cluster, OutOfMemory, Party};
use ab_open::Checked;
use ab_text::Premise;
use std::alloc::Global;
use std::marker::Model;

/// What correct parties stated, the digests of what they had or checked, and the first forgery and the
/// first collision. The history of a message that was looked at last is kept, so that what the next one has in common with it
/// isn't hashed again.
#[derive(Drop)]
pub struct Watch {
    made: Statements,
    forged: Option<Forgery>,
    digests: Digests,
    last: Option<History>,
    collided: Option<Collision>,
}

impl Model for Watch {
    ghost use Rattle.ab_premise.specs.Premises.{forged_first};
    ghost use Rattle.ab_premise.specs.Watching.{Watching};

    ghost Value = { Watching };

    ghost view = { λ w. record { made = w.made; forged = forged_first w.forged; kept = w.digests; collided = w.collided } };
}

/// What is kept of the empty history, which each replica has before the first event.
fn first_digests(alloc: Global) -> Result<Digests, OutOfMemory>
    ensures { IfOk result (λ d. d ≡ first_watch.kept) }
{
    let mut digests = Digests::new(alloc);
    digests.add_history(alloc, &History::new(alloc), 0)?;
    Ok(digests)
}

impl Watch {
    /// Nothing came yet.
    pub fn new(alloc: Global) -> Result<Watch, OutOfMemory>
        ensures { IfOk result (λ w. w ≡ first_watching) }
    {
        let digests = first_digests(alloc)?;
        Ok(Watch {
            made: Statements::new(alloc),
            forged: None,
            digests,
            last: None,
            collided: None,
        })
    }

    /// The maker of the first claim of an opened message that names a correct party which didn't make it
    /// before.
    pub fn forged(&self, k: &Cluster, faulty: &[(Party, u8)], m: &Checked<'_>) -> Option<Party>
        requires { IsTrue (is_party k.now.f k.now.clients m.now.me) }
        ensures { (x : RunSetup) → x.faulty ≡ map (λ e. e.0) faulty.now → result ≡ forged_in x spell_content self.now.made (claims k.now.f m.now.me m.now.msg) }
    {
        forged_in(k, faulty, &self.made, m)
    }

    /// Looks at the histories, lists and requests that the party which opened a message checks in it, and
    /// at those among its values. It is answered whether digests collide. After an `Err`
    /// some of it may be kept.
    pub fn look_at_checked(
        &mut self,
        alloc: Global,
        k: &Cluster,
        m: &Checked<'_>,
    ) -> Result<bool, OutOfMemory>
        requires { IsTrue (is_party k.now.f k.now.clients m.now.me) }
        ensures found { IfOk result (λ found. found ≡ any_found self.old.kept (message_items k.now.f m.now.me m.now.msg)) }
        ensures ok { OnOk result (self.new ≡ record self.old { kept = keep_items self.old.kept (message_items k.now.f m.now.me m.now.msg) }) }
        ensures err { OnErr result (self.new ≡ record self.old { kept = self.new.kept }) }
    {
        let of_claims = look_at_claims(alloc, &mut self.digests, &mut self.last, m.checks(k))?;
        let of_values = look_at_message(alloc, &mut self.digests, &mut self.last, m.msg())?;
        Ok(of_claims | of_values)
    }

    /// Looks at a replica: at its log, of which the first `known` entries begin one that came before, at
    /// the history with which it entered, if that is new, and at the history that it accepted first.
    pub fn look_at_replica(
        &mut self,
        alloc: Global,
        log: &History,
        known: usize,
        entered: Option<&History>,
        first: Option<&History>,
    ) -> Result<bool, OutOfMemory>
        ensures found { IfOk result (λ found. found ≡ any_found self.old.kept (history_item log.now known ∷ (first_items (option_map (λ h. h.now) entered.entry) ++ first_items (option_map (λ h. h.now) first.entry)))) }
        ensures ok { OnOk result (self.new ≡ record self.old { kept = keep_items self.old.kept (history_item log.now known ∷ (first_items (option_map (λ h. h.now) entered.entry) ++ first_items (option_map (λ h. h.now) first.entry))) }) }
        ensures err { OnErr result (self.new ≡ record self.old { kept = self.new.kept }) }
    {
        let of_log = self.digests.add_history(alloc, log, known)?;
        let of_base = look_at_one(alloc, &mut self.digests, entered)?;
        let of_first = look_at_one(alloc, &mut self.digests, first)?;
        Ok(of_log || of_base || of_first)
    }

    /// Keeps what a party of the cluster states in what it sends.
    pub fn state(
        &mut self,
        alloc: Global,
        k: &Cluster,
        party: Party,
        outs: &[Out],
    ) -> Result<(), OutOfMemory>
        requires party { IsTrue (is_party k.now.f k.now.clients party) }
        requires drafts { All (IsDraftOf k.now.f party) outs.now }
        ensures ok { OnOk result (self.new ≡ record self.old { made = fold keep self.old.made (map spell_content (flat_map (λ o. stated k.now.f party o.msg) outs.now)) }) }
        ensures err { OnErr result (self.new ≡ record self.old { made = self.new.made }) }
    {
        state(alloc, k, party, &mut self.made, outs)
    }

    /// An event of a party ends, in which this name was forged, if one was, and a collision was found or
    /// not.
    pub fn tell(&mut self, event: u32, party: Party, forged: Option<Party>, collides: bool)
        ensures { self.new ≡ record self.old { forged = first_of self.old.forged (forgery event forged); collided = first_collision self.old.collided event party collides } }
    {
        self.forged = first_forgery(self.forged, event, forged);
        self.collided = first_collision(self.collided, event, party, collides);
    }

    /// The premise line where these parties are faulty.
    pub fn premise(&self, f: u8, faulty: &[(Party, u8)]) -> Premise
        ensures { result ≡ faulty_premise (passing f faulty.now) (first_premise self.now.forged self.now.collided) }
    {
        premise(f, faulty, self.forged, self.collided)
    }
}
