//! Contents that were checked, each a content of its own.

ghost use Rattle.std.specs.Prelude.{◌≡◌, IfOk, map};
ghost use Rattle.ab_open.specs.Claimed.{by_maker};

use ab_check::Checks;
use ab_hist::History;
use ab_msg::Content;
use ab_num::{OutOfMemory, Party};
use std::alloc::Global;
use std::marker::Model;

/// Contents that were checked, each with its maker.
#[derive(Drop)]
pub struct Claims {
    claims: Vec<(Party, Content)>,
}

/// It is seen as the list of what it holds.
impl Model for Claims {
    ghost use Rattle.std.specs.Prelude.{List};
    ghost use Rattle.ab_num.specs.declared.party.Party.{Party as TheParty};
    ghost use Rattle.ab_msg.specs.declared.content.Content.{Content as TheContent};

    ghost Value = { List (TheParty × TheContent) };

    ghost view = { λ c. c.claims.items };
}

/// The history of the last of these contents, if that is an ABORT.
fn last_history(claims: &[(Party, Content)]) -> Option<&History> {
    match &claims.last()?.1 {
        Content::Abort { history, .. } => Some(history),
        Content::AbortZ { history, .. } => Some(history),
        Content::TrimmedAbort { rest, .. } => Some(rest),
        _ => None,
    }
}

impl Claims {
    /// Each maker with its content, in the order of checking.
    pub fn as_slice(&self) -> &[(Party, Content)]
        ensures { result.now ≡ self.now }
    {
        self.claims.as_slice()
    }

    /// Each maker with its content, in the order of checking, to keep.
    pub fn into_vec(self) -> Vec<(Party, Content)>
        ensures { result.items ≡ self }
    {
        self.claims
    }

    /// A copy of the content of each of these. An ABORT's history shares what it has in common with that of the content before it.
    pub(crate) fn of(alloc: Global, given: Checks<'_>) -> Result<Claims, OutOfMemory>
        ensures { IfOk result (λ c. c ≡ map (λ k. by_maker k.content) given.entry) }
    {
        let mut claims = Vec::new(alloc);
        'checks: for check in given {
            let maker = check.claim.maker();
            let content = check
                .claim
                .own_like(alloc, last_history(claims.as_slice()))?;
            claims.push((maker, content))?;
        }
        Ok(Claims { claims })
    }
}
