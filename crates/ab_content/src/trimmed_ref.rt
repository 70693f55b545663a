//! Lists that stand in received bytes, of which the first entries may be forgotten.

ghost use Rattle.std.specs.Prelude.{◌≡◌, ◌==◌, ◌&&◌, IfOk};
ghost use Rattle.ab_form.specs.Readers.{Gives, made};
ghost use Rattle.ab_content.specs.Histories.{history_at};
ghost use Rattle.ab_content.specs.TrimmedLists.{forgot_at, rest_at, trimmed_at};
ghost use Rattle.ab_content.specs.Views.{history, trimmed};
ghost use Rattle.ab_hist.specs.Trimmed.{untrimmed};
ghost use Rattle.ab_msg.specs.Fields.{IsSpellable};

use crate::history_ref::{HistoryRef, history_at};
use ab_form::{Bad, array_at, ranged_u16, u16_at};
use ab_msg::TRIMMED;

/// How many requests there may be behind those that are forgotten.
const CAPACITY: u16 = 1024;

/// How many there may be with those that are forgotten.
const MOST: u16 = 65_535;

/// A list whose rest stands in the bytes.
#[derive(Clone, Copy, Debug)]
pub struct TrimmedRef<'a> {
    pub start: u16,
    pub digest: [u8; 32],
    pub rest: HistoryRef<'a>,
}

/// A list that may have forgotten its first entries. With `forgets` false it is one that has forgotten nothing.
pub fn trimmed_at(forgets: bool, bytes: &[u8]) -> Result<(TrimmedRef<'_>, &[u8]), Bad>
    ensures fits { IfOk result (λ x. IsSpellable (trimmed x.0)) }
    ensures exact { Gives (λ x. (trimmed x.0, x.1.now)) result (trimmed_at forgets bytes.now) }
{
    let (first, behind) = u16_at(bytes)?;
    if is_mark(forgets, first) {
        forgot_at(behind)
    } else {
        whole_at(bytes)
    }
}

/// Whether a list that begins with this number has forgotten entries.
fn is_mark(forgets: bool, first: u16) -> bool
    ensures { result ≡ (forgets && first == 65535) }
{
    forgets && first == TRIMMED
}

/// A list that has forgotten nothing.
fn whole_at(bytes: &[u8]) -> Result<(TrimmedRef<'_>, &[u8]), Bad>
    ensures { Gives (λ x. (trimmed x.0, x.1.now)) result (made untrimmed history_at bytes.now) }
{
    let (rest, behind) = history_at(bytes)?;
    let list = TrimmedRef {
        start: 0,
        digest: [0; 32],
        rest,
    };
    Ok((list, behind))
}

/// A list that has forgotten entries, behind the mark that says so.
#[tactic(auto, unfolding(crate::specs::TrimmedLists::forgot_at))]
fn forgot_at(bytes: &[u8]) -> Result<(TrimmedRef<'_>, &[u8]), Bad>
    ensures { Gives (λ x. (trimmed x.0, x.1.now)) result (forgot_at bytes.now) }
{
    let (start, rest) = ranged_u16(1, MOST, Bad::BadField, bytes)?;
    let (digest, rest) = array_at(rest)?;
    let (rest, behind) = rest_at(start, rest)?;
    let list = TrimmedRef {
        start,
        digest: *digest,
        rest,
    };
    Ok((list, behind))
}

/// The entries behind `start` forgotten ones. Their number is looked at before any of them.
fn rest_at(start: u16, bytes: &[u8]) -> Result<(HistoryRef<'_>, &[u8]), Bad>
    ensures { Gives (λ x. (history x.0, x.1.now)) result (rest_at start bytes.now) }
{
    let most = CAPACITY.min(MOST - start);
    let _count = ranged_u16(0, most, Bad::BadLength, bytes)?;
    history_at(bytes)
}
