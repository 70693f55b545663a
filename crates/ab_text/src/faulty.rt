//! The lines of faulty parties.

ghost use Rattle.std.specs.Prelude.{◌≡◌, ℕ, ◌<◌, ◌≤◌, ◌+◌, ◌++◌, ◌∷◌, ◌↔◌, All, IsTrue, IfSome, Some, decimal};
ghost use Rattle.ab_num.specs.declared.party.Party.{Party as TheParty};
ghost use Rattle.ab_text.specs.Cores.{IsParty, party_text};
ghost use Rattle.ab_text.specs.Schedules.{IsBefore, IsInside, IsNextFaulty, faulty_line};

use crate::cores::party_of;
use crate::head_lines::HeadLines;
use crate::numbers::number;
use crate::parts::{after, split_first};
use ab_num::{Cluster, Party};

/// Whether a party comes before another: replicas first, then by their numbers.
fn is_before(earlier: Party, later: Party) -> bool
    ensures { IsTrue result ↔ IsBefore earlier later }
{
    match (earlier, later) {
        (Party::Replica(r), Party::Replica(s)) => r < s,
        (Party::Replica(_), Party::Client(_)) => true,
        (Party::Client(_), Party::Replica(_)) => false,
        (Party::Client(c), Party::Client(d)) => c < d,
    }
}

/// Whether a party is of the cluster.
fn is_inside(cluster: Cluster, party: Party) -> bool
    ensures { IsTrue result ↔ IsInside cluster.f cluster.clients party }
{
    match party {
        Party::Replica(r) => r < cluster.replicas(),
        Party::Client(c) => c < cluster.clients,
    }
}

/// Whether a party comes after each of these.
fn is_after_all(faulty: &[(Party, u8)], party: Party) -> bool
    ensures { IsTrue result ↔ All (λ y. IsBefore y.0 party) faulty.now }
{
    faulty.iter().all(|earlier| is_before(earlier.0, party))
}

/// A number of twins, 1 to 4.
fn twins_of(digits: &[u8]) -> Option<u8>
    ensures found { IfSome result (λ t. (1 ≤ t) × (t ≤ 4) × (digits.now ≡ decimal t)) }
    ensures only { (t : ℕ) → 1 ≤ t → t ≤ 4 → digits.now ≡ decimal t → result ≡ Some t }
{
    let number = number(digits)?;
    if number < 1 || number > 4 {
        return None;
    }
    Some(number as u8)
}

/// A party and a number of twins.
fn twins_at(party: &[u8], digits: &[u8]) -> Option<(Party, u8)>
    ensures found { IfSome result (λ x. (1 ≤ x.1) × (x.1 ≤ 4) × (party.now ++ 32 ∷ digits.now ≡ party_text x.0 ++ 32 ∷ decimal x.1)) }
    ensures only { (p : TheParty) (t : ℕ) → IsParty p → 1 ≤ t → t ≤ 4 → party.now ≡ party_text p → digits.now ≡ decimal t → result ≡ Some (p, t) }
{
    let party = party_of(party)?;
    let twins = twins_of(digits)?;
    Some((party, twins))
}

/// The faulty party of what comes after the word.
fn faulty_of(text: &[u8]) -> Option<(Party, u8)>
    ensures found { IfSome result (λ x. (1 ≤ x.1) × (x.1 ≤ 4) × (text.now ≡ party_text x.0 ++ 32 ∷ decimal x.1)) }
    ensures only { (p : TheParty) (t : ℕ) → IsParty p → 1 ≤ t → t ≤ 4 → text.now ≡ party_text p ++ 32 ∷ decimal t → result ≡ Some (p, t) }
{
    match split_first(text, b' ') {
        None => None,
        Some((party, digits)) => twins_at(party, digits),
    }
}

/// Whether a party may come next among the faulty ones.
fn may_come_next(setting: HeadLines, faulty: &[(Party, u8)], party: Party) -> bool
    ensures { IsTrue result ↔ (IsInside setting.cluster.f setting.cluster.clients party × All (λ y. IsBefore y.0 party) faulty.now) }
{
    is_inside(setting.cluster, party) && is_after_all(faulty, party)
}

/// The faulty party of a line that may come next.
pub(crate) fn next_faulty(
    setting: HeadLines,
    faulty: &[(Party, u8)],
    line: &[u8],
) -> Option<(Party, u8)>
    ensures found { IfSome result (λ x. IsNextFaulty setting.cluster.f setting.cluster.clients faulty.now x × (line.now ≡ faulty_line x)) }
    ensures only { (x : TheParty × ℕ) → IsNextFaulty setting.cluster.f setting.cluster.clients faulty.now x → line.now ≡ faulty_line x → result ≡ Some x }
{
    match after(line, b"faulty ") {
        None => None,
        Some(text) => match faulty_of(text) {
            None => None,
            Some((party, twins)) => {
                if may_come_next(setting, faulty, party) {
                    Some((party, twins))
                } else {
                    None
                }
            }
        },
    }
}
