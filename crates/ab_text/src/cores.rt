//! The texts of parties and cores.

ghost use Rattle.std.specs.Prelude.{◌≡◌, ℕ, ◌^◌, ◌<◌, ◌++◌, ◌∷◌, IfSome, Some, decimal, codes};
ghost use Rattle.ab_num.specs.declared.party.Party.{Party as TheParty};
ghost use Rattle.ab_text.specs.declared.event.Core.{Core as TheCore};
ghost use Rattle.ab_text.specs.Cores.{IsParty, party_text, IsTwin, IsCore, core_text};

use crate::event::Core;
use crate::numbers::number;
use crate::parts::{after, split_first};
use ab_num::Party;

/// The replica of this number.
fn replica_of(digits: &[u8]) -> Option<Party>
    ensures found { IfSome result (λ p. IsParty p × (codes "r" ++ digits.now ≡ party_text p)) }
    ensures only { (r : ℕ) → r < 2 ^ 8 → digits.now ≡ decimal r → result ≡ Some (Party.Replica r) }
{
    let number = number(digits)?;
    if number > 0xff {
        return None;
    }
    Some(Party::Replica(number as u8))
}

/// The client of this number.
fn client_of(digits: &[u8]) -> Option<Party>
    ensures found { IfSome result (λ p. IsParty p × (codes "c" ++ digits.now ≡ party_text p)) }
    ensures only { (c : ℕ) → c < 2 ^ 16 → digits.now ≡ decimal c → result ≡ Some (Party.Client c) }
{
    let number = number(digits)?;
    if number > 0xffff {
        return None;
    }
    Some(Party::Client(number as u16))
}

/// The party that a text names.
pub fn party_of(text: &[u8]) -> Option<Party>
    ensures found { IfSome result (λ p. IsParty p × (text.now ≡ party_text p)) }
    ensures only { (p : TheParty) → IsParty p → text.now ≡ party_text p → result ≡ Some p }
{
    if let Some(digits) = after(text, b"r") {
        return replica_of(digits);
    }
    if let Some(digits) = after(text, b"c") {
        return client_of(digits);
    }
    None
}

/// The number of a twin.
fn twin_of(digits: &[u8]) -> Option<u8>
    ensures found { IfSome result (λ t. IsTwin t × (digits.now ≡ decimal t)) }
    ensures only { (t : ℕ) → IsTwin t → digits.now ≡ decimal t → result ≡ Some t }
{
    let number = number(digits)?;
    if number < 1 || number > 0xff {
        return None;
    }
    Some(number as u8)
}

/// The core of a party that has one.
fn sole_core(text: &[u8]) -> Option<Core>
    ensures found { IfSome result (λ core. IsCore core × (text.now ≡ core_text core)) }
    ensures only { (p : TheParty) → IsParty p → text.now ≡ party_text p → result ≡ Some (record { party = p; twin = None }) }
{
    let party = party_of(text)?;
    Some(Core { party, twin: None })
}

/// A twin of a party.
fn twin_core(party: &[u8], twin: &[u8]) -> Option<Core>
    ensures found { IfSome result (λ core. IsCore core × (party.now ++ 46 ∷ twin.now ≡ core_text core)) }
    ensures only { (p : TheParty) (t : ℕ) → IsParty p → IsTwin t → party.now ≡ party_text p → twin.now ≡ decimal t
        → result ≡ Some (record { party = p; twin = Some t }) }
{
    let party = party_of(party)?;
    let twin = twin_of(twin)?;
    Some(Core {
        party,
        twin: Some(twin),
    })
}

/// The core that a text names.
pub(crate) fn core_of(text: &[u8]) -> Option<Core>
    ensures found { IfSome result (λ core. IsCore core × (text.now ≡ core_text core)) }
    ensures only { (core : TheCore) → IsCore core → text.now ≡ core_text core → result ≡ Some core }
{
    match split_first(text, b'.') {
        None => sole_core(text),
        Some((party, twin)) => twin_core(party, twin),
    }
}
