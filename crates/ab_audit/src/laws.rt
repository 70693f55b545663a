//! What an audit accuses of.

ghost use Rattle.std.specs.Prelude.{◌≡◌, ◌↔◌, ℕ, List, All, Contains, flat_map, map};
ghost use Rattle.std.specs.List.{IsDistinct};
ghost use Rattle.ab_num.specs.declared.party.Party.{Party};
ghost use Rattle.ab_form.specs.Formats.{IsBytes};
ghost use Rattle.ab_msg.specs.declared.message.Msg.{Msg as Message};
ghost use Rattle.ab_check.specs.Checks.{checks_of};
ghost use Rattle.ab_sign.specs.declared.key.SignKey.{SignKey};
ghost use Rattle.ab_audit.specs.declared.accusation.Accusation.{Accusation};
ghost use Rattle.ab_audit.specs.Accusations.{IsAccused, accusation_eq};
ghost use Rattle.ab_audit.specs.Audits.{begun, told_all};
ghost use Rattle.ab_audit.specs.Correct.{FindsItsOwn, StatesOnce, accused_replica};
ghost use Rattle.ab_audit.specs.Exhibits.{Contradict, evidence};
ghost use Rattle.ab_audit.specs.Kept.{accused_in, finding_of, shown_in};
ghost use Rattle.ab_audit.specs.Statements.{signed_at, statements_in};
ghost use Rattle.ab_msg.specs.declared.content.Content.{Content as Stated};

use ab_check::claims_are_checked;
use ab_content::contents_have_their_own_bytes;
use ab_open::{messages_are_formats, opened_messages_are_of_the_grammar};

/// Whatever party takes a message, all that is signed in it is among what the party checks.
pub fn signed_statements_are_checked()
    ensures { (f : ℕ) (me : Party) (m : Message) → flat_map signed_at (checks_of f me m) ≡ statements_in m }
{}

/// Whom an audit accuses contradicts itself by the messages that came, and whoever does is accused, once. What is kept
/// of it are the contents that show it.
pub fn audits_accuse_contradictions()
    ensures accused { (keys : List SignKey) (inputs : List (List ℕ)) (a : Accusation) → All IsBytes inputs
        → Contains (accused_in (told_all (begun keys) inputs).kept) a ↔ IsAccused keys inputs a }
    ensures once { (keys : List SignKey) (inputs : List (List ℕ)) → IsDistinct accusation_eq (accused_in (told_all (begun keys) inputs).kept) }
    ensures shown { (keys : List SignKey) (inputs : List (List ℕ)) (a : Accusation)
        → shown_in (told_all (begun keys) inputs).kept a ≡ map finding_of (evidence keys inputs a) }
{
    contents_have_their_own_bytes();
    claims_are_checked();
    messages_are_formats();
    opened_messages_are_of_the_grammar();
}

/// What shows an accusation are two different contents, each found in the message of its number.
pub fn evidence_contradicts()
    ensures { (keys : List SignKey) (inputs : List (List ℕ)) (a : Accusation) → All IsBytes inputs → IsAccused keys inputs a
        → Contradict keys inputs a (evidence keys inputs a) }
{
    contents_have_their_own_bytes();
    claims_are_checked();
    messages_are_formats();
    opened_messages_are_of_the_grammar();
}

/// A replica isn't accused if each ABORT and each PREPARE that is found in its name is among what was made, and it made one
/// ABORT of an instance and one PREPARE of a view and a slot.
pub fn correct_replicas_are_not_accused()
    ensures { (keys : List SignKey) (inputs : List (List ℕ)) (made : List Stated) (r : ℕ) (a : Accusation) → FindsItsOwn keys inputs made r → StatesOnce made r
        → accused_replica a ≡ r → IsAccused keys inputs a → ⊥ }
{}
