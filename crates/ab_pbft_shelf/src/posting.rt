//! What is sent for what a replica does.

ghost use Rattle.std.specs.Prelude.{◌≡◌, ◌+◌, ◌*◌, ◌<◌, ◌↔◌, ◌++◌, IfOk, OnOk, IsErrOf, length};
ghost use Rattle.ab_num.specs.declared.party.Party.TheVariants.{Replica};
ghost use Rattle.ab_msg.specs.Pens.{moved};
ghost use Rattle.ab_abs.specs.Signers.{SignsNothing};
ghost use Rattle.ab_pbft_shelf.specs.declared.author.Author.{Author as Signer};
ghost use Rattle.ab_pbft_shelf.specs.Shelves.{with_ballot, with_certified, left_for};
ghost use Rattle.ab_pbft_shelf.specs.Posts.{posts, posts_all, posts_prepare, posts_change, own_change_of, is_signed, signed_by, signings, to_others, commit_message, lead_message};

use crate::author::Author;
use crate::changes::{own_proof, proofs_for};
use crate::kept::SignedVote;
use crate::sending::{tell_all, tell_offer};
use crate::shelf::Shelf;
use ab_abs::StepFault;
use ab_msg::{
    Content, Copied, Msg, NO_TAG, Notary, Out, Proof, Sig, SignFault, Signed, Value, ViewEntries,
};
use ab_num::{OutOfMemory, Party};
use ab_slots::{Notice, slot_digest};
use std::alloc::Global;

/// The next signature, for this content.
fn sign<N: Notary>(alloc: Global, content: &Content, n: &mut N) -> Result<Sig, StepFault>
    ensures ok { IfOk result (λ s. (s ≡ (N.pen n.old).sig content.now (N.pen n.old).used) × (N.pen n.new ≡ moved (N.pen n.old) 1) × (N.remains n.new + 1 ≡ N.remains n.old)) }
    ensures spent { IsErrOf result StepFault.Spent ↔ (N.remains n.old ≡ 0) }
{
    match n.sign(alloc, content) {
        Ok(sig) => Ok(sig),
        Err(SignFault::Spent) => Err(StepFault::Spent),
        Err(SignFault::OutOfMemory) => Err(StepFault::OutOfMemory),
    }
}

/// The PREPARE of a slot in a view.
fn prepare_of(by: &Author, view: u32, slot: u8, x: &[u8; 32]) -> Content
    ensures { result ≡ Content.Prepare (Replica by.now.me) by.now.instance view slot x.now }
{
    Content::Prepare {
        maker: Party::Replica(by.me),
        instance: by.instance,
        view,
        slot,
        x: *x,
    }
}

/// The COMMIT of a value for a slot in a view.
fn commit_of(by: &Author, view: u32, slot: u8, value: &Value) -> Msg
    ensures { result ≡ commit_message by.now view slot value.now }
{
    let content = Content::Commit {
        maker: Party::Replica(by.me),
        instance: by.instance,
        view,
        slot,
        x: slot_digest(value),
    };
    Msg::Commit {
        content,
        tag: NO_TAG,
    }
}

/// The VIEW-CHANGE for a view.
fn change_of(
    alloc: Global,
    by: &Author,
    view: u32,
    entries: &ViewEntries,
) -> Result<Content, OutOfMemory>
    ensures { IfOk result (λ c. c ≡ Content.ViewChange (Replica by.now.me) by.now.instance view entries.now) }
{
    let entries = entries.copy(alloc)?;
    Ok(Content::ViewChange {
        maker: Party::Replica(by.me),
        instance: by.instance,
        view,
        entries,
    })
}

/// The NEW-VIEW of a view, with the VIEW-CHANGEs that it rests on.
fn lead_of(alloc: Global, by: &Author, shelf: &Shelf, view: u32) -> Result<Msg, OutOfMemory>
    ensures { IfOk result (λ m. m ≡ lead_message by.now shelf.now view) }
{
    let most = usize::from(2 * by.cluster.f + 1);
    let changes = proofs_for(alloc, most, view, shelf.proofs.as_slice())?;
    let content = Content::NewView {
        maker: Party::Replica(by.me),
        instance: by.instance,
        view,
    };
    Ok(Msg::NewView {
        content,
        tag: NO_TAG,
        changes,
    })
}

/// Whether it is signed.
fn is_signed(deed: &Notice) -> bool
    ensures { result ≡ is_signed deed.now }
{
    match deed {
        Notice::Signs { .. } | Notice::Changes { .. } => true,
        _ => false,
    }
}

/// How often these are signed, whoever does them.
fn signings(deeds: &[Notice]) -> usize
    ensures { (by : Signer) → result ≡ signings by deeds.now }
{
    deeds.iter().filter(|d| is_signed(d)).count()
}

/// A content with the next signature.
fn signed<N: Notary>(
    alloc: Global,
    me: u8,
    content: Content,
    n: &mut N,
) -> Result<Signed, StepFault>
    ensures ok { IfOk result (λ s. (s ≡ record { maker = me; content = content; sig = (N.pen n.old).sig content (N.pen n.old).used }) × (N.pen n.new ≡ moved (N.pen n.old) 1) × (N.remains n.new + 1 ≡ N.remains n.old)) }
    ensures spent { IsErrOf result StepFault.Spent → N.remains n.old ≡ 0 }
{
    let sig = sign(alloc, &content, n)?;
    Ok(Signed {
        maker: me,
        content,
        sig,
    })
}

impl Shelf {
    /// Keeps a signed PREPARE of its own.
    fn keep_own(
        &mut self,
        alloc: Global,
        slot: u8,
        x: &[u8; 32],
        prepare: &Signed,
    ) -> Result<(), OutOfMemory>
        ensures { OnOk result (self.new ≡ with_ballot (record { by = prepare.now.maker; slot = slot; x = x.now; sig = prepare.now.sig }) self.old) }
    {
        let sig = prepare.sig.copy(alloc)?;
        self.keep_own_ballot(SignedVote {
            by: prepare.maker,
            slot,
            x: *x,
            sig,
        })
    }

    /// Signs a PREPARE and keeps it.
    fn own_prepare<N: Notary>(
        &mut self,
        alloc: Global,
        by: &Author,
        view: u32,
        slot: u8,
        x: &[u8; 32],
        n: &mut N,
    ) -> Result<Signed, StepFault>
        ensures ok { IfOk result (λ w. (w ≡ record { maker = by.now.me; content = Content.Prepare (Replica by.now.me) by.now.instance view slot x.now; sig = (N.pen n.old).sig (Content.Prepare (Replica by.now.me) by.now.instance view slot x.now) (N.pen n.old).used }) × (self.new ≡ with_ballot (record { by = w.maker; slot = slot; x = x.now; sig = w.sig }) self.old)) }
        ensures left { IfOk result (λ _. (N.pen n.new ≡ moved (N.pen n.old) 1) × (N.remains n.new + 1 ≡ N.remains n.old)) }
        ensures spent { IsErrOf result StepFault.Spent → N.remains n.old ≡ 0 }
    {
        let prepare = signed(alloc, by.me, prepare_of(by, view, slot, x), n)?;
        self.keep_own(alloc, slot, x, &prepare)?;
        Ok(prepare)
    }

    /// Signs a PREPARE, keeps it and tells it.
    fn post_prepare<N: Notary>(
        &mut self,
        alloc: Global,
        by: &Author,
        view: u32,
        slot: u8,
        x: &[u8; 32],
        n: &mut N,
        outs: &mut Vec<Out>,
    ) -> Result<(), StepFault>
        ensures ok { OnOk result (posts_prepare by.now view slot x.now (record { pen = N.pen n.old; shelf = self.old; sent = outs.old.items }) ≡ record { pen = N.pen n.new; shelf = self.new; sent = outs.new.items }) }
        ensures left { OnOk result (N.remains n.new + 1 ≡ N.remains n.old) }
        ensures spent { IsErrOf result StepFault.Spent → N.remains n.old ≡ 0 }
    {
        let prepare = self.own_prepare(alloc, by, view, slot, x, n)?;
        tell_all(alloc, by, Msg::Prepare { prepare }, outs)?;
        Ok(())
    }

    /// Makes the certificate of a prepared value, and tells its COMMIT.
    fn post_commit(
        &mut self,
        alloc: Global,
        by: &Author,
        view: u32,
        slot: u8,
        value: &Value,
        outs: &mut Vec<Out>,
    ) -> Result<(), OutOfMemory>
        ensures shelf { OnOk result (self.new ≡ with_certified by.now.cluster.f view slot value.now self.old) }
        ensures sent { OnOk result (outs.new.items ≡ outs.old.items ++ to_others (3 * by.now.cluster.f + 1) by.now.me (λ r. commit_message by.now view slot value.now)) }
    {
        self.certify(alloc, &by.cluster, view, slot, value)?;
        tell_all(alloc, by, commit_of(by, view, slot, value), outs)
    }

    /// Its VIEW-CHANGE for a view, with the next signature, and what its slots have.
    fn own_change<N: Notary>(
        &self,
        alloc: Global,
        by: &Author,
        view: u32,
        entries: &ViewEntries,
        n: &mut N,
    ) -> Result<Proof, StepFault>
        ensures ok { IfOk result (λ p. (p ≡ own_change_of by.now self.now (N.pen n.old) view entries.now) × (N.pen n.new ≡ moved (N.pen n.old) 1) × (N.remains n.new + 1 ≡ N.remains n.old)) }
        ensures spent { IsErrOf result StepFault.Spent → N.remains n.old ≡ 0 }
    {
        let content = change_of(alloc, by, view, entries)?;
        let change = signed(alloc, by.me, content, n)?;
        Ok(own_proof(alloc, change, self.certified.as_slice())?)
    }

    /// Keeps its own VIEW-CHANGE as it leaves for the view.
    fn leave_with(
        &mut self,
        alloc: Global,
        me: u8,
        view: u32,
        change: &Proof,
    ) -> Result<(), OutOfMemory>
        ensures { OnOk result (self.new ≡ left_for me view change.now self.old) }
    {
        let kept = change.copy(alloc)?;
        self.leave(me, view, kept)
    }

    /// Signs its VIEW-CHANGE, and keeps it as it leaves for the view.
    fn left_change<N: Notary>(
        &mut self,
        alloc: Global,
        by: &Author,
        view: u32,
        entries: &ViewEntries,
        n: &mut N,
    ) -> Result<Proof, StepFault>
        ensures ok { IfOk result (λ w. (w ≡ own_change_of by.now self.old (N.pen n.old) view entries.now) × (self.new ≡ left_for by.now.me view w self.old)) }
        ensures left { IfOk result (λ _. (N.pen n.new ≡ moved (N.pen n.old) 1) × (N.remains n.new + 1 ≡ N.remains n.old)) }
        ensures spent { IsErrOf result StepFault.Spent → N.remains n.old ≡ 0 }
    {
        let change = self.own_change(alloc, by, view, entries, n)?;
        self.leave_with(alloc, by.me, view, &change)?;
        Ok(change)
    }

    /// Signs its VIEW-CHANGE, keeps it and tells it.
    fn post_change<N: Notary>(
        &mut self,
        alloc: Global,
        by: &Author,
        view: u32,
        entries: &ViewEntries,
        n: &mut N,
        outs: &mut Vec<Out>,
    ) -> Result<(), StepFault>
        ensures ok { OnOk result (posts_change by.now view entries.now (record { pen = N.pen n.old; shelf = self.old; sent = outs.old.items }) ≡ record { pen = N.pen n.new; shelf = self.new; sent = outs.new.items }) }
        ensures left { OnOk result (N.remains n.new + 1 ≡ N.remains n.old) }
        ensures spent { IsErrOf result StepFault.Spent → N.remains n.old ≡ 0 }
    {
        let change = self.left_change(alloc, by, view, entries, n)?;
        tell_all(alloc, by, Msg::ViewChange { change }, outs)?;
        Ok(())
    }

    /// Tells the NEW-VIEW of a view that it leads.
    fn post_lead(
        &self,
        alloc: Global,
        by: &Author,
        view: u32,
        outs: &mut Vec<Out>,
    ) -> Result<(), OutOfMemory>
        ensures { OnOk result (outs.new.items ≡ outs.old.items ++ to_others (3 * by.now.cluster.f + 1) by.now.me (λ r. lead_message by.now self.now view)) }
    {
        let msg = lead_of(alloc, by, self, view)?;
        tell_all(alloc, by, msg, outs)
    }

    /// Signs and adds what is sent for a deed, and keeps what is to be kept of it. Spent comes only of a deed
    /// that signs where `n` can't. After an `Err` the value may be anything.
    fn post<N: Notary>(
        &mut self,
        alloc: Global,
        by: &Author,
        deed: &Notice,
        n: &mut N,
        outs: &mut Vec<Out>,
    ) -> Result<(), StepFault>
        ensures ok { OnOk result (posts by.now deed.now (record { pen = N.pen n.old; shelf = self.old; sent = outs.old.items }) ≡ record { pen = N.pen n.new; shelf = self.new; sent = outs.new.items }) }
        ensures left { OnOk result (N.remains n.new + length (signed_by by.now deed.now) ≡ N.remains n.old) }
        ensures spent { IsErrOf result StepFault.Spent → N.remains n.old < length (signed_by by.now deed.now) }
    {
        match deed {
            Notice::Signs { view, slot, x } => {
                self.post_prepare(alloc, by, *view, *slot, x, n, outs)
            }
            Notice::Prepares { view, slot, value } => {
                Ok(self.post_commit(alloc, by, *view, *slot, value, outs)?)
            }
            Notice::Changes { view, entries } => self.post_change(
                alloc, by, *view, entries, n, outs,
            ),
            Notice::Enters { view } => {
                self.enter(*view);
                Ok(())
            }
            Notice::Offers { view, slot, value } => {
                Ok(tell_offer(alloc, by, self, *view, *slot, value, outs)?)
            }
            Notice::Leads { view } => Ok(self.post_lead(alloc, by, *view, outs)?),
        }
    }

    /// Signs, keeps and sends what each of these deeds wants, one after another. After an `Err` some of them may be done.
    fn post_each<N: Notary>(
        &mut self,
        alloc: Global,
        by: &Author,
        deeds: &[Notice],
        n: &mut N,
        outs: &mut Vec<Out>,
    ) -> Result<(), StepFault>
        ensures ok { OnOk result (posts_all by.now deeds.now (record { pen = N.pen n.old; shelf = self.old; sent = outs.old.items }) ≡ record { pen = N.pen n.new; shelf = self.new; sent = outs.new.items }) }
        ensures left { OnOk result (N.remains n.new + signings by.now deeds.now ≡ N.remains n.old) }
        ensures spent { IsErrOf result StepFault.Spent → N.remains n.old < signings by.now deeds.now }
    {
        'deeds: for deed in deeds {
            self.post(alloc, by, deed, n, outs)?;
        }
        Ok(())
    }

    /// Signs, keeps and sends what these deeds want, if `n` has signatures left for all of them. Else it is Spent, and
    /// nothing is signed.
    pub fn post_all<N: Notary>(
        &mut self,
        alloc: Global,
        by: &Author,
        deeds: &[Notice],
        n: &mut N,
        outs: &mut Vec<Out>,
    ) -> Result<(), StepFault>
        ensures ok { OnOk result (posts_all by.now deeds.now (record { pen = N.pen n.old; shelf = self.old; sent = outs.old.items }) ≡ record { pen = N.pen n.new; shelf = self.new; sent = outs.new.items }) }
        ensures left { OnOk result (N.remains n.new + signings by.now deeds.now ≡ N.remains n.old) }
        ensures spent { IsErrOf result StepFault.Spent ↔ (N.remains n.old < signings by.now deeds.now) }
        ensures unused { IsErrOf result StepFault.Spent → SignsNothing (N.pen n.old) (N.remains n.old) (N.pen n.new) (N.remains n.new) }
    {
        if n.left() < signings(deeds) as u64 {
            return Err(StepFault::Spent);
        }
        self.post_each(alloc, by, deeds, n, outs)
    }
}
