//! What is looked at for forgeries.

ghost use Rattle.std.specs.Prelude.{◌≡◌, IsTrue, map};
ghost use Rattle.std.specs.List.{list_any};
ghost use Rattle.ab_num.specs.Parties.{party_eq};
ghost use Rattle.ab_keys.specs.Keys.{is_party};
ghost use Rattle.ab_msg.specs.Claims.{claims};
ghost use Rattle.ab_msg.specs.Contents.{spell_content};
ghost use Rattle.ab_abs.specs.Faults.{is_faulty};
ghost use Rattle.ab_run.specs.Setups.{RunSetup};
ghost use Rattle.ab_run.specs.Stages.{forged_in};

use crate::statements::Statements;
use ab_num::{Cluster, Party};
use ab_open::Checked;

/// Whether the list has the party.
fn has(faulty: &[(Party, u8)], party: Party) -> bool
    ensures { result ≡ list_any (λ e. party_eq party e.0) faulty.now }
{
    faulty.iter().any(|e| party.is_same(e.0))
}

/// Whether a party is declared faulty.
fn is_faulty(faulty: &[(Party, u8)], party: Party) -> bool
    ensures { result ≡ is_faulty (map (λ e. e.0) faulty.now) party }
{
    has(faulty, party)
}

/// The maker of the first claim of an opened message that names a correct party which didn't make it
/// before.
#[tactic(auto, using(crate::proofs::ClaimLemmas::forged_here))]
pub(crate) fn forged_in(
    k: &Cluster,
    faulty: &[(Party, u8)],
    made: &Statements,
    m: &Checked<'_>,
) -> Option<Party>
    requires { IsTrue (is_party k.now.f k.now.clients m.now.me) }
    ensures { (x : RunSetup) → x.faulty ≡ map (λ e. e.0) faulty.now → result ≡ forged_in x spell_content made.now (claims k.now.f m.now.me m.now.msg) }
{
    for check in m.checks(k) {
        let maker = check.claim.maker();
        let text = check.claim.text();
        if !is_faulty(faulty, maker) && !made.contains(text.as_slice()) {
            return Some(maker);
        }
    }
    None
}
