//! Messages are read, and replicas that contradict themselves are named.

ghost use Rattle.std.specs.Prelude.{◌≡◌, ◌+◌, ◌*◌, length, map, flat_map, IfOk, OnOk, OnErr};
ghost use Rattle.ab_check.specs.Listing.{IsClaim, checked};
ghost use Rattle.ab_open.specs.Messages.{message_of};
ghost use Rattle.ab_scheme.specs.Schemes.{verified_by};
ghost use Rattle.ab_sign.specs.Judges.{is_sig_from};
ghost use Rattle.ab_sign.specs.declared.key.SignKey.TheVariants.{Public};
ghost use Rattle.ab_audit.specs.Audits.{IsToldOf, answer_to, begun, news_of, option_note, told};
ghost use Rattle.ab_audit.specs.Kept.{accused_in, first_of, found_in, is_known, keep_all, notes_in, other_of};

use crate::accusation::Accusation;
use crate::added::Added;
use crate::kept::{Found, is_known, keep_all, subjects_of};
use crate::subject::subject;
use crate::tried::Tried;
use crate::words::words;
use ab_check::{CheckRef, Checks, TokenRef, checks_in};
use ab_num::{Cluster, OutOfMemory, Party};
use ab_open::read;
use ab_scheme::{PublicKey, verify_by};
use indexmap::IndexMap;
use std::alloc::Global;
use std::cell::RefCell;
use std::marker::Model;

/// The public keys of replicas, and what they stated in the messages so far. What is kept takes memory by the
/// different statements, and not by the messages; what is held of signatures that were tried has a bound.
#[derive(Drop)]
pub struct Audit {
    cluster: Cluster,
    publics: Vec<PublicKey>,
    tried: RefCell<Tried>,
    first: IndexMap<Accusation, Found>,
    others: IndexMap<Accusation, Found>,
}

impl Model for Audit {
    ghost use Rattle.std.specs.Prelude.{map};
    ghost use Rattle.ab_sign.specs.declared.key.SignKey.TheVariants.{Public};
    ghost use Rattle.ab_audit.specs.Audits.{Auditing};
    ghost use Rattle.ab_audit.specs.Kept.{kept_in};

    ghost Value = { Auditing };

    ghost view = { λ a. record { keys = map Public a.publics.items; kept = kept_in a.first.entries a.others.entries } };
}

impl Audit {
    /// The audit of a cluster whose replicas have these public keys, from replica 0 on.
    pub fn new(alloc: Global, c: &Cluster, publics: &[PublicKey]) -> Result<Audit, OutOfMemory>
        requires { length publics.now ≡ 3 * c.now.f + 1 }
        ensures { IfOk result (λ a. a ≡ begun (map Public publics.now)) }
    {
        Ok(Audit {
            cluster: *c,
            publics: Vec::from_slice(alloc, publics)?,
            tried: RefCell::new(Tried::new(alloc)),
            first: IndexMap::new(alloc),
            others: IndexMap::new(alloc),
        })
    }

    /// Whether the signature verifies under a public key. It is computed only if it wasn't tried before.
    fn verifies(&self, alloc: Global, public: &PublicKey, text: &[u8], sig: &[u8]) -> bool
        ensures { result ≡ verified_by public.now text.now sig.now }
    {
        match self.tried.try_borrow_mut() {
            Ok(mut tried) => tried.check(alloc, public, text, sig),
            Err(_) => verify_by(public.as_slice(), text, sig),
        }
    }

    /// Whether it is the maker's signature over the text.
    fn is_signed(&self, alloc: Global, maker: Party, text: &[u8], sig: &[u8]) -> bool
        ensures { result ≡ is_sig_from self.now.keys maker text.now sig.now }
    {
        let Party::Replica(r) = maker else {
            return false;
        };
        match self.publics.get(usize::from(r)) {
            Some(public) => self.verifies(alloc, public, text, sig),
            None => false,
        }
    }

    fn is_known(&self, about: &Accusation, text: &[u8]) -> bool
        ensures { result ≡ is_known self.now.kept about.now text.now }
    {
        is_known(&self.first, &self.others, about, text)
    }

    /// What a check in the message of this number tells that is new.
    fn news(
        &self,
        alloc: Global,
        number: u64,
        check: &CheckRef<'_>,
    ) -> Result<Option<(Accusation, Found)>, OutOfMemory>
        requires { IsClaim check.now.claim }
        ensures { IfOk result (λ n. option_note n ≡ news_of self.now number (checked check.now)) }
    {
        let TokenRef::Sig(sig) = check.token else {
            return Ok(None);
        };
        let Some(about) = subject(&check.claim) else {
            return Ok(None);
        };
        let text = check.claim.text();
        let bytes = text.as_slice();
        if self.is_known(&about, bytes) || !self.is_signed(alloc, check.claim.maker(), bytes, sig) {
            return Ok(None);
        }
        let found = Found {
            number,
            text: Vec::from_slice(alloc, bytes)?,
            words: words(alloc, &check.claim)?,
        };
        Ok(Some((about, found)))
    }

    /// What checks in the message of this number tell that is new.
    fn news_among(
        &self,
        alloc: Global,
        number: u64,
        checks: Checks<'_>,
    ) -> Result<Vec<(Accusation, Found)>, OutOfMemory>
        ensures { IfOk result (λ v. notes_in v.items ≡ flat_map (news_of self.now number) checks.entry) }
    {
        let mut news = Vec::new(alloc);
        'checks: for check in checks {
            if let Some(note) = self.news(alloc, number, &check)? {
                news.push(note)?;
            }
        }
        Ok(news)
    }

    /// Keeps all of these, or nothing.
    fn keep(&mut self, news: Vec<(Accusation, Found)>) -> Result<(), OutOfMemory>
        ensures ok { OnOk result (self.new ≡ record self.old { kept = keep_all self.old.kept (notes_in news.items) }) }
        ensures err { OnErr result (self.new ≡ self.old) }
    {
        self.first.reserve(news.len())?;
        self.others.reserve(news.len())?;
        keep_all(&mut self.first, &mut self.others, news);
        Ok(())
    }

    /// Reads the bytes of the message of this number, and keeps what is signed in it.
    pub fn add(&mut self, alloc: Global, number: u64, bytes: &[u8]) -> Result<Added, OutOfMemory>
        ensures answer { IfOk result (λ answer. answer ≡ answer_to (message_of bytes.now)) }
        ensures ok { OnOk result (self.new ≡ told self.old number (message_of bytes.now)) }
        ensures err { OnErr result (self.new ≡ self.old) }
    {
        match read(bytes) {
            Ok(m) => {
                let checks = checks_in(&self.cluster, Party::Client(0), m);
                let news = self.news_among(alloc, number, checks)?;
                self.keep(news)?;
                Ok(Added::Taken)
            }
            Err(bad) => Ok(Added::Bad(bad)),
        }
    }

    /// Who contradicted itself, and by what: by replica, then ABORTs before PREPAREs, then by instance, view and slot.
    pub fn accusations(&self, alloc: Global) -> Result<Vec<Accusation>, OutOfMemory>
        ensures { IfOk result (λ v. IsToldOf (accused_in self.now.kept) v.items) }
    {
        let mut listed = subjects_of(alloc, &self.others)?;
        listed.sort_unstable_by_key(|a| a.rank());
        Ok(listed)
    }

    /// What was found first about a subject.
    pub(crate) fn first(&self, about: &Accusation) -> Option<&Found>
        ensures { found_in result ≡ first_of self.now.kept about.now }
    {
        self.first.get(about)
    }

    /// What was found first that differs from it.
    pub(crate) fn other(&self, about: &Accusation) -> Option<&Found>
        ensures { found_in result ≡ other_of self.now.kept about.now }
    {
        self.others.get(about)
    }
}
