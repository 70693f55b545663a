//! What a claim is one statement of.

ghost use Rattle.std.specs.Prelude.{◌≡◌};
ghost use Rattle.ab_check.specs.Listing.{claimed};
ghost use Rattle.ab_audit.specs.Accusations.{subject_of};
ghost use Rattle.ab_content.specs.Views.{content as shown};

use crate::accusation::Accusation;
use ab_check::ClaimRef;
use ab_content::ContentRef;
use ab_num::Party;

/// The subject of a content of replica `replica`.
fn subject_in(content: &ContentRef<'_>) -> Option<Accusation>
    ensures { result ≡ subject_of (shown content.now) }
{
    match content {
        ContentRef::Abort {
            maker: Party::Replica(replica),
            instance,
            ..
        } => Some(Accusation::Abort {
            replica: *replica,
            instance: *instance,
        }),
        ContentRef::AbortZ {
            maker: Party::Replica(replica),
            instance,
            ..
        } => Some(Accusation::Abort {
            replica: *replica,
            instance: *instance,
        }),
        ContentRef::TrimmedAbort {
            maker: Party::Replica(replica),
            instance,
            ..
        } => Some(Accusation::Abort {
            replica: *replica,
            instance: *instance,
        }),
        ContentRef::Prepare {
            maker: Party::Replica(replica),
            instance,
            view,
            slot,
            ..
        } => Some(Accusation::Prepare {
            replica: *replica,
            instance: *instance,
            view: *view,
            slot: *slot,
        }),
        _ => None,
    }
}

/// What a correct replica states once, if the claim is of that kind.
#[tactic(auto, using(crate::proofs::SubjectLemmas::said_subject))]
pub(crate) fn subject(claim: &ClaimRef<'_>) -> Option<Accusation>
    ensures { result ≡ subject_of (claimed claim.now) }
{
    match claim {
        ClaimRef::Received { content, .. } => subject_in(content),
        ClaimRef::Asked { .. } => None,
        ClaimRef::Said { .. } => None,
        ClaimRef::Answered { .. } => None,
        ClaimRef::Prepared {
            replica,
            instance,
            view,
            slot,
            ..
        } => Some(Accusation::Prepare {
            replica: *replica,
            instance: *instance,
            view: *view,
            slot: *slot,
        }),
    }
}
