//! What is written of marks.

ghost use Rattle.std.specs.Prelude.{◌≡◌, IfOk, string_bytes};
ghost use Rattle.ab_picture.specs.Labels.{cause_words, certified_text, committed_text, entered_text, front_of, invoked_text, label_of, refused_text, refusing_text, reply_of, spent_text};

use crate::picture::{Mark, Sign};
use ab_num::{OutOfMemory, Party};
use ab_text::{OpenCause, party_string};
use std::alloc::{AllocError, Global};

fn cause_words(cause: OpenCause) -> &'static str
    ensures { result.now ≡ cause_words cause }
{
    match cause {
        OpenCause::Bad => "no message",
        OpenCause::Kind => "not for it",
        OpenCause::Tag => "wrong tag",
    }
}

fn invoked_string(
    alloc: Global,
    party: Party,
    instance: u32,
    stamp: u64,
) -> Result<String, AllocError>
    ensures { IfOk result (λ s. string_bytes s ≡ invoked_text party instance stamp) }
{
    let party = party_string(alloc, party)?;
    format!(in alloc; "{party} invokes {stamp} in instance {instance}")
}

fn committed_string(
    alloc: Global,
    party: Party,
    instance: u32,
    n: u16,
) -> Result<String, AllocError>
    ensures { IfOk result (λ s. string_bytes s ≡ committed_text party instance n) }
{
    let party = party_string(alloc, party)?;
    format!(in alloc; "{party} commits number {n} in instance {instance}: ")
}

fn certified_string(alloc: Global, party: Party, instance: u32) -> Result<String, AllocError>
    ensures { IfOk result (λ s. string_bytes s ≡ certified_text party instance) }
{
    let party = party_string(alloc, party)?;
    format!(in alloc; "{party} takes a certificate of instance {instance}")
}

fn entered_string(alloc: Global, party: Party, instance: u32) -> Result<String, AllocError>
    ensures { IfOk result (λ s. string_bytes s ≡ entered_text party instance) }
{
    let party = party_string(alloc, party)?;
    format!(in alloc; "{party} enters instance {instance}")
}

fn refusing_string(alloc: Global, party: Party) -> Result<String, AllocError>
    ensures { IfOk result (λ s. string_bytes s ≡ refusing_text party) }
{
    let party = party_string(alloc, party)?;
    format!(in alloc; "{party} refuses bytes: ")
}

fn refused_string(alloc: Global, party: Party, cause: OpenCause) -> Result<String, AllocError>
    ensures { IfOk result (λ s. string_bytes s ≡ refused_text party cause) }
{
    let mut text = refusing_string(alloc, party)?;
    text.push_str(cause_words(cause))?;
    Ok(text)
}

fn spent_string(alloc: Global, party: Party) -> Result<String, AllocError>
    ensures { IfOk result (λ s. string_bytes s ≡ spent_text party) }
{
    let party = party_string(alloc, party)?;
    format!(in alloc; "{party} has too few signatures left")
}

/// What is written of a mark up to the reply, if there is one.
fn front_of(alloc: Global, party: Party, sign: &Sign) -> Result<String, AllocError>
    ensures { IfOk result (λ s. string_bytes s ≡ front_of party sign.now) }
{
    match sign {
        Sign::Invoked { instance, stamp } => invoked_string(alloc, party, *instance, *stamp),
        Sign::Committed { instance, n, .. } => committed_string(alloc, party, *instance, *n),
        Sign::Certified { instance } => certified_string(alloc, party, *instance),
        Sign::Entered { instance } => entered_string(alloc, party, *instance),
        Sign::Refused(cause) => refused_string(alloc, party, *cause),
        Sign::Spent => spent_string(alloc, party),
    }
}

/// The reply that a sign tells of, if there is one.
fn reply_of(sign: &Sign) -> &[u8]
    ensures { result.now ≡ reply_of sign.now }
{
    match sign {
        Sign::Committed { reply, .. } => reply.as_slice(),
        Sign::Invoked { .. } => b"".as_slice(),
        Sign::Certified { .. } => b"".as_slice(),
        Sign::Entered { .. } => b"".as_slice(),
        Sign::Refused(_) => b"".as_slice(),
        Sign::Spent => b"".as_slice(),
    }
}

/// What is written of a mark.
pub(crate) fn label_of(alloc: Global, mark: &Mark) -> Result<Vec<u8>, OutOfMemory>
    ensures { IfOk result (λ v. v.items ≡ label_of mark.now) }
{
    let front = front_of(alloc, mark.party, &mark.sign)?;
    let mut label = Vec::from_slice(alloc, front.as_bytes())?;
    label.extend_from_slice(reply_of(&mark.sign))?;
    Ok(label)
}
