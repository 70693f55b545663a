//! The reading of an audit's text.

ghost use Rattle.std.specs.Prelude.{◌≡◌, ◌<◌, ◌^◌, ◌+◌, ◌≤◌, ◌↔◌, IfOk, IsTrue, codes, [], length};
ghost use Rattle.ab_text.specs.Heads.{lms_line, schemes, spelled_in};
ghost use Rattle.ab_text.specs.Lines.{lines_of};
ghost use Rattle.ab_key_text.specs.Lines.{Gives, line_at};
ghost use Rattle.ab_key_text.specs.Reading.{ended};
ghost use Rattle.ab_audit_text.specs.Texts.{audit_in, audit_of, messages_at, name_in};

use crate::hex_bytes::message_in;
use crate::text::AuditText;
use ab_key_text::{NodeFault, number_at, publics_of, replicas};
use ab_num::{Cluster, Plan, Scheme};
use ab_scheme::PublicKey;
use ab_text::{Items, cluster_of, next_line, scheme_in};
use std::alloc::Global;

/// What stands in front of the messages.
#[derive(Drop)]
struct Front {
    cluster: Cluster,
    lms: Scheme,
    publics: Vec<PublicKey>,
}

/// What comes after line 1, which says that this is the text of an audit.
fn named(text: &[u8]) -> Result<&[u8], NodeFault>
    ensures reads { Gives (λ rest. (tt, lines_of rest.now)) result (line_at name_in 1 (lines_of text.now)) }
    ensures shorter { IfOk result (λ rest. length rest.now ≤ length text.now) }
{
    match next_line(text) {
        None => Err(NodeFault::NoEnd(1)),
        Some((line, rest)) => {
            if line == b"audit 1".as_slice() {
                Ok(rest)
            } else {
                Err(NodeFault::BadLine(1))
            }
        }
    }
}

/// The scheme of line 3, and what comes after that line.
fn scheme_at(text: &[u8]) -> Result<(Scheme, &[u8]), NodeFault>
    ensures reads { Gives (λ p. (p.0, lines_of p.1.now)) result (line_at (spelled_in lms_line schemes) 3 (lines_of text.now)) }
    ensures shorter { IfOk result (λ p. length p.1.now ≤ length text.now) }
{
    match next_line(text) {
        None => Err(NodeFault::NoEnd(3)),
        Some((line, rest)) => match scheme_in(line) {
            None => Err(NodeFault::BadLine(3)),
            Some(found) => Ok((found, rest)),
        },
    }
}

/// Whether the line is the last one.
fn is_end(line: &[u8]) -> bool
    ensures { IsTrue result ↔ (line.now ≡ codes "end") }
{
    line == b"end".as_slice()
}

/// Keys and messages, where the text ends at line `n`.
fn ended(
    front: Front,
    messages: Items<Items<u8>>,
    text: &[u8],
    n: u32,
) -> Result<AuditText, NodeFault>
    ensures { Gives (λ t. t) result (ended (audit_of front.cluster.f front.lms front.publics.items messages) n (lines_of text.now)) }
{
    match next_line(text) {
        None => Ok(AuditText {
            cluster: front.cluster,
            lms: front.lms,
            publics: front.publics,
            messages,
        }),
        Some(_) => Err(NodeFault::BadLine(n)),
    }
}

/// The messages from line `first` on, and the end.
fn messages_at(alloc: Global, front: Front, text: &[u8], first: u32) -> Result<AuditText, NodeFault>
    requires { first + length text.now < 2 ^ 32 }
    ensures { Gives (λ t. t) result (messages_at (audit_of front.cluster.f front.lms front.publics.items []) first (lines_of text.now)) }
{
    let mut messages = Items::new(alloc);
    let mut rest = text;
    let mut n = first;
    while let Some((line, behind)) = next_line(rest) {
        if is_end(line) {
            return ended(front, messages, behind, n + 1);
        }
        match message_in(alloc, line)? {
            None => return Err(NodeFault::BadLine(n)),
            Some(message) => messages.push(message)?,
        }
        rest = behind;
        n += 1;
    }
    Err(NodeFault::NoEnd(n))
}

/// The keys and messages that the text of an audit spells. A bad line is the first that isn't as stated; if the
/// text ends before its end, that line is missing.
#[tactic(auto, unfolding(crate::specs::Texts::audit_in))]
pub fn read_audit(alloc: Global, text: &[u8]) -> Result<AuditText, NodeFault>
    requires { length text.now < 2 ^ 31 }
    ensures { Gives (λ t. t) result (audit_in (lines_of text.now)) }
{
    let rest = named(text)?;
    let (f, rest) = number_at(rest, b"f ", 1, 2, 2)?;
    let (lms, rest) = scheme_at(rest)?;
    let cluster = cluster_of(f as u8, 1, Plan::Quorum, 0);
    let replicas = replicas(alloc, &cluster)?;
    let publics = publics_of(alloc, rest, lms, &replicas, 4)?;
    let front = Front {
        cluster,
        lms,
        publics: publics.value,
    };
    messages_at(alloc, front, publics.rest, publics.next)
}
