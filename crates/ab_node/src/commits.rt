//! What a client commits in an event.

ghost use Rattle.std.specs.Prelude.{◌≡◌};
ghost use Rattle.ab_node.specs.Clients.{commit_in, commit_of};

use ab_abs::Seen;
use ab_hist::array_of;
use ab_loop::Commit;

/// What is seen as a commit.
fn commit_of(seen: &Seen) -> Option<Commit>
    ensures { result ≡ commit_of seen.now }
{
    match seen {
        Seen::Invoked { .. } => None,
        Seen::Init { .. } => None,
        Seen::Cert { .. } => None,
        Seen::TrimmedInit { .. } => None,
        Seen::TrimmedCert { .. } => None,
        Seen::Committed { i, m, n, reply, .. } => Some(Commit {
            stamp: m.stamp,
            instance: *i,
            n: *n,
            reply: array_of(reply.as_slice()),
        }),
    }
}

/// The commit among what is seen in an event.
pub(crate) fn commit_in(seen: &[Seen]) -> Option<Commit>
    ensures { result ≡ commit_in seen.now }
{
    for s in seen {
        match commit_of(s) {
            Some(commit) => return Some(commit),
            None => {}
        }
    }
    None
}
