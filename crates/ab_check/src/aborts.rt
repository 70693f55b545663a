//! ABORTs and the answers in the certificates that they hold, one after the other.

ghost use Rattle.std.specs.Prelude.{◌≡◌, ◌≤◌, ◌∷◌, ◌++◌, [], length, option_map, IfSome, MatchOption};
ghost use Rattle.ab_form.specs.Lists.{FitsInside};
ghost use Rattle.ab_msg.specs.Contents.{IsStopContent, IsZcert};
ghost use Rattle.ab_content.specs.Views.{content as shown, zcert as shown_zcert};
ghost use Rattle.ab_wire.specs.Views.{aborts as shown_aborts};
ghost use Rattle.ab_check.specs.Checks.{aborts_checks, answers_checks, kept_answers, kept_checks};
ghost use Rattle.ab_check.specs.Listing.{AreAnswers, IsClaim, aborts_left, answers_left, checked};

use crate::check_ref::{CheckRef, TokenRef};
use crate::claim_ref::ClaimRef;
use crate::copied::{copy_of, none};
use ab_content::{ContentRef, ZcertRef};
use ab_form::ListRef;
use ab_wire::SignedRef;

/// Zeros, where there is no certificate.
const NOTHING: &[u8; 32] = &[0; 32];

/// A certificate of answers, of which the signatures are left that are still to be told.
#[derive(Clone, Copy, Debug)]
pub(crate) struct AnswersRef<'a> {
    pub(crate) instance: u32,
    pub(crate) zcert: ZcertRef<'a>,
}

/// The answers that are left of one ABORT, and the ABORTs behind it.
#[derive(Clone, Copy, Debug)]
pub(crate) struct AbortsRef<'a> {
    pub(crate) answers: AnswersRef<'a>,
    pub(crate) aborts: ListRef<'a, SignedRef<'a>>,
}

/// No answers.
fn none_answered<'a>() -> AnswersRef<'a>
    ensures none { answers_left result ≡ [] }
    ensures lawful { AreAnswers result }
{
    let zcert = ZcertRef {
        client: 0,
        stamp: 0,
        n: 0,
        d: NOTHING,
        reply: &[],
        sigs: none(),
    };
    AnswersRef { instance: 1, zcert }
}

/// The answers in a certificate, if there is one.
fn answers_in<'a>(instance: u32, kept: Option<ZcertRef<'a>>) -> AnswersRef<'a>
    requires { FitsInside IsZcert (option_map shown_zcert kept) }
    ensures claimed { answers_left result ≡ kept_answers instance (option_map shown_zcert kept.entry) }
    ensures lawful { AreAnswers result }
{
    match kept {
        Some(zcert) => AnswersRef { instance, zcert },
        None => none_answered(),
    }
}

/// The answers that an ABORT holds.
fn kept_in<'a>(content: &ContentRef<'a>) -> AnswersRef<'a>
    requires { IsStopContent (shown content.now) }
    ensures claimed { answers_left result ≡ kept_checks (shown content.now) }
    ensures lawful { AreAnswers result }
{
    match content {
        ContentRef::AbortZ {
            instance,
            zcert,
            ..
        } => answers_in(*instance, copy_of(zcert)),
        _ => none_answered(),
    }
}

/// No ABORTs.
pub(crate) fn none_aborted<'a>() -> AbortsRef<'a>
    ensures none { aborts_left result ≡ [] }
    ensures lawful { AreAnswers result.answers }
{
    aborts_of(none())
}

/// The ABORTs of a certificate.
pub(crate) fn aborts_of<'a>(aborts: ListRef<'a, SignedRef<'a>>) -> AbortsRef<'a>
    ensures claimed { aborts_left result ≡ aborts_checks (shown_aborts aborts.entry) }
    ensures lawful { AreAnswers result.answers }
{
    AbortsRef {
        answers: none_answered(),
        aborts,
    }
}

/// What stands behind the signature of an ABORT.
pub(crate) fn behind<'a>(content: &ContentRef<'a>) -> AbortsRef<'a>
    requires { IsStopContent (shown content.now) }
    ensures claimed { aborts_left result ≡ kept_checks (shown content.now) }
    ensures lawful { AreAnswers result.answers }
{
    AbortsRef {
        answers: kept_in(content),
        aborts: none(),
    }
}

/// The answers in a certificate that came by itself.
pub(crate) fn answers_of<'a>(instance: u32, zcert: ZcertRef<'a>) -> AbortsRef<'a>
    requires { length zcert.reply.now ≤ 72 }
    ensures claimed { aborts_left result ≡ answers_checks instance (shown_zcert zcert.entry) }
    ensures lawful { AreAnswers result.answers }
{
    AbortsRef {
        answers: AnswersRef { instance, zcert },
        aborts: none(),
    }
}

/// The next answer.
fn next_answer<'a>(a: &mut AnswersRef<'a>) -> Option<CheckRef<'a>>
    requires { AreAnswers a.old }
    ensures next { MatchOption result ((answers_left a.old ≡ []) × (answers_left a.new ≡ [])) (λ s. answers_left a.old ≡ checked s ∷ answers_left a.new) }
    ensures claim { IfSome result (λ s. IsClaim s.claim) }
    ensures lawful { AreAnswers a.new }
{
    match a.zcert.sigs.next() {
        Some(s) => Some(CheckRef {
            claim: ClaimRef::Answered {
                instance: a.instance,
                zcert: copy_of(&a.zcert),
                replica: s.replica,
            },
            token: TokenRef::Sig(s.sig),
        }),
        None => None,
    }
}

/// The next answer that an ABORT holds, or the next ABORT and its signature.
#[tactic(auto, using(ab_wire::proofs::KindLemmas::abort_content))]
pub(crate) fn next_abort<'a>(a: &mut AbortsRef<'a>) -> Option<CheckRef<'a>>
    requires { AreAnswers a.old.answers }
    ensures next { MatchOption result ((aborts_left a.old ≡ []) × (aborts_left a.new ≡ [])) (λ s. aborts_left a.old ≡ checked s ∷ aborts_left a.new) }
    ensures claim { IfSome result (λ s. IsClaim s.claim) }
    ensures lawful { AreAnswers a.new.answers }
{
    if let Some(s) = next_answer(&mut a.answers) {
        return Some(s);
    }
    match a.aborts.next() {
        Some(s) => {
            a.answers = kept_in(&s.content);
            Some(CheckRef {
                claim: ClaimRef::Received {
                    content: s.content,
                    bytes: s.bytes,
                },
                token: TokenRef::Sig(s.sig),
            })
        }
        None => None,
    }
}
