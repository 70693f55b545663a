//! The checks of a message, one after the other.

ghost use Rattle.std.specs.Prelude.{◌≡◌, ◌++◌, ◌∷◌, [], IfSome, MatchOption};
ghost use Rattle.ab_check.specs.Checks.{all_checks};
ghost use Rattle.ab_wire.specs.Views.{proofs};
ghost use Rattle.ab_check.specs.Listing.{AreAnswers, IsClaim, IsPassed, IsPrepared, aborts_left, checked, one_left, passed_left, prepared_left};

use crate::aborts::{AbortsRef, next_abort};
use crate::check_ref::{CheckRef, TokenRef};
use crate::claim_ref::ClaimRef;
use crate::passed::{Passed, next_passed};
use crate::prepared::{PreparedRef, next_prepared, prepared_of};
use ab_form::ListRef;
use ab_wire::ProofRef;
use std::marker::Model;

/// What a party checks of a message, in order. It takes no memory.
#[derive(Drop)]
pub struct Checks<'a> {
    first: Option<CheckRef<'a>>,
    second: Option<CheckRef<'a>>,
    passed: Passed<'a>,
    aborts: AbortsRef<'a>,
    prepared: PreparedRef<'a>,
    changes: ListRef<'a, ProofRef<'a>>,
}

/// It is seen as the list of what is left.
impl<'a> Model for Checks<'a> {
    ghost use Rattle.std.specs.Prelude.{◌++◌, List, IfSome};
    ghost use Rattle.ab_check.specs.Checks.{Check, all_checks};
    ghost use Rattle.ab_wire.specs.Views.{proofs};
    ghost use Rattle.ab_check.specs.Listing.{AreAnswers, IsClaim, IsPassed, IsPrepared, aborts_left, one_left, passed_left, prepared_left};

    ghost Value = { List Check };

    ghost view = { λ s. one_left s.first ++ (one_left s.second ++ (passed_left s.passed ++ (aborts_left s.aborts ++ (prepared_left s.prepared ++ all_checks (proofs s.changes))))) };

    ghost invariant = { λ s. IfSome s.first (λ c. IsClaim c.claim) × IfSome s.second (λ c. IsClaim c.claim) × IsPassed s.passed × AreAnswers s.aborts.answers × IsPrepared s.prepared };
}

impl<'a> Checks<'a> {
    /// These parts, in this order.
    pub(crate) fn of(
        first: Option<CheckRef<'a>>,
        second: Option<CheckRef<'a>>,
        passed: Passed<'a>,
        aborts: AbortsRef<'a>,
        prepared: PreparedRef<'a>,
        changes: ListRef<'a, ProofRef<'a>>,
    ) -> Checks<'a>
        requires first { IfSome first (λ c. IsClaim c.claim) }
        requires second { IfSome second (λ c. IsClaim c.claim) }
        requires passed { IsPassed passed }
        requires aborts { AreAnswers aborts.answers }
        requires prepared { IsPrepared prepared }
        ensures { result ≡ one_left first.entry ++ (one_left second.entry ++ (passed_left passed.entry ++ (aborts_left aborts.entry ++ (prepared_left prepared.entry ++ all_checks (proofs changes.entry))))) }
    {
        Checks {
            first,
            second,
            passed,
            aborts,
            prepared,
            changes,
        }
    }
}

/// The next view change, and the PREPAREs behind it.
#[tactic(auto, using(ab_wire::proofs::KindLemmas::change_content))]
fn next_change<'a>(
    changes: &mut ListRef<'a, ProofRef<'a>>,
) -> Option<(CheckRef<'a>, PreparedRef<'a>)>
    ensures next { MatchOption result ((all_checks (proofs changes.old) ≡ []) × (all_checks (proofs changes.new) ≡ [])) (λ s. all_checks (proofs changes.old) ≡ checked s.0 ∷ (prepared_left s.1 ++ all_checks (proofs changes.new))) }
    ensures lawful { IfSome result (λ s. IsClaim s.0.claim × IsPrepared s.1) }
{
    match changes.next() {
        Some(v) => {
            let prepares = v.prepares;
            let prepared = prepared_of(&v.change.content, prepares);
            let check = CheckRef {
                claim: ClaimRef::Received {
                    content: v.change.content,
                    bytes: v.change.bytes,
                },
                token: TokenRef::Sig(v.change.sig),
            };
            Some((check, prepared))
        }
        None => None,
    }
}

impl<'a> Iterator for Checks<'a> {
    ghost use Rattle.std.specs.Prelude.{IfSome};
    ghost use Rattle.std.specs.Iterator.{YieldsFirstBy, item_count};
    ghost use Rattle.ab_check.specs.Listing.{IsClaim, checked};

    type Item = CheckRef<'a>;

    ghost next_gives = { λ s check after. YieldsFirstBy checked (λ left. left) s check after × IfSome check (λ c. IsClaim c.claim) };

    ghost remaining = { item_count (λ left. left) };

    fn next(&mut self) -> Option<CheckRef<'a>> {
        if let Some(s) = self.first.take() {
            return Some(s);
        }
        if let Some(s) = self.second.take() {
            return Some(s);
        }
        if let Some(s) = next_passed(&mut self.passed) {
            return Some(s);
        }
        if let Some(s) = next_abort(&mut self.aborts) {
            return Some(s);
        }
        if let Some(s) = next_prepared(&mut self.prepared) {
            return Some(s);
        }
        match next_change(&mut self.changes) {
            Some((s, prepared)) => {
                self.prepared = prepared;
                Some(s)
            }
            None => None,
        }
    }
}
