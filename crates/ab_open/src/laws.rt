//! What is known of what opens.

ghost use Rattle.std.specs.Prelude.{◌≡◌, ◌≢◌, ◌<◌, ℕ, List, false, Ok, Err, Option, IsTrue, All, Contains, flat_map, ◌||◌};
ghost use Rattle.std.specs.List.{list_any};
ghost use Rattle.ab_num.specs.declared.party.Party.{Party};
ghost use Rattle.ab_num.specs.Bounds.{IsInBounds};
ghost use Rattle.ab_form.specs.Formats.{IsBytes};
ghost use Rattle.ab_form.specs.declared.bad.Bad.TheVariants.{BadLength};
ghost use Rattle.ab_hist.specs.declared.request.Request.{Request as Entry};
ghost use Rattle.ab_hist.specs.Histories.{IsHistory};
ghost use Rattle.ab_msg.specs.declared.message.Msg.{Msg as Message};
ghost use Rattle.ab_msg.specs.declared.message.Msg.TheVariants as msg;
ghost use Rattle.ab_msg.specs.declared.signed.Signed.{Signed};
ghost use Rattle.ab_msg.specs.Carried.{stated_history};
ghost use Rattle.ab_msg.specs.Claims.{claims, maker_of};
ghost use Rattle.ab_msg.specs.Contents.{IsContent};
ghost use Rattle.ab_msg.specs.Messages.{IsMessage, spell_message};
ghost use Rattle.ab_check.specs.Checks.{Check, Judge, by_tag, checks_of, is_refused, is_right};
ghost use Rattle.ab_open.specs.Messages.{message_of};
ghost use Rattle.ab_open.specs.Opening.{judged, opening, takes};
ghost use Rattle.ab_open.specs.Trimmed.{holds_trimmed, is_trimmed, shows_trimmed};
ghost use Rattle.ab_open.specs.declared.fault.OpenFault.TheVariants as fault;

/// A message opens only where what stands for each of its claims is right, and there is something that
/// can stand for the first.
pub fn opened_messages_are_checked()
    ensures right { (judge : Judge) (f clients every : ℕ) (me : Party) (bytes : List ℕ) (m : Message) → opening judge f clients every me bytes ≡ Ok m → All (λ k. IsTrue (is_right judge k)) (checks_of f me m) }
    ensures refused { (judge : Judge) (f clients every : ℕ) (me : Party) (bytes : List ℕ) (m : Message) → opening judge f clients every me bytes ≡ Ok m → is_refused me m ≡ false }
{}

/// A message that opens is of the grammar and its bytes spell it, its receiver takes it, and each of
/// its claims is a content of the grammar. The stamps of the histories in them rise.
pub fn opened_messages_are_of_the_grammar()
    ensures grammar { (judge : Judge) (f clients every : ℕ) (me : Party) (bytes : List ℕ) (m : Message) → IsBytes bytes → opening judge f clients every me bytes ≡ Ok m
        → IsMessage m × (bytes ≡ spell_message m) × IsTrue (takes f clients me m) }
    ensures claims { (f clients : ℕ) (me : Party) (m : Message) → IsInBounds f clients → IsMessage m → All IsContent (claims f me m) }
    ensures histories { (f clients : ℕ) (me : Party) (m : Message) → IsInBounds f clients → IsMessage m → (h : List Entry) → Contains (flat_map stated_history (claims f me m)) h → IsHistory h }
{}

/// Where no tag of oneself is right, a message opens only where no claim that stands by a tag is one's
/// own; nor is a PREPARE that comes by itself.
pub fn own_statements_are_refused()
    ensures tags { (judge : Judge) (f clients every : ℕ) (me : Party) (bytes : List ℕ) (m : Message) → ((text : List ℕ) (tag : Option (List ℕ)) → judge me text (by_tag tag) ≡ false)
        → opening judge f clients every me bytes ≡ Ok m → (k : Check) (tag : Option (List ℕ)) → Contains (checks_of f me m) k → k.token ≡ by_tag tag → maker_of k.content ≢ me }
    ensures prepares { (judge : Judge) (f clients every : ℕ) (me : Party) (bytes : List ℕ) (s : Signed) → opening judge f clients every me bytes ≡ Ok (msg.Prepare s) → maker_of s.content ≢ me }
{}

/// A message holds a trimmed list if one of its claims states one or if it shows the base of a view change without its first entries.
/// In a cluster without checkpoints nobody reads a message with a trimmed list, so nothing that opens there states one. In any other
/// cluster such a message opens as others do; and what holds no trimmed list opens in all clusters alike.
pub fn trimmed_lists_need_checkpoints()
    ensures refused { (judge : Judge) (f clients : ℕ) (me : Party) (bytes : List ℕ) (m : Message) → message_of bytes ≡ Ok m → IsTrue (holds_trimmed m)
        → opening judge f clients 0 me bytes ≡ Err (fault.Bad BadLength) }
    ensures whole { (judge : Judge) (f clients : ℕ) (me : Party) (bytes : List ℕ) (m : Message) → opening judge f clients 0 me bytes ≡ Ok m → holds_trimmed m ≡ false }
    ensures held { (f : ℕ) (me : Party) (m : Message) → IsMessage m → holds_trimmed m ≡ (list_any is_trimmed (claims f me m) || shows_trimmed m) }
    ensures taken { (judge : Judge) (f clients every : ℕ) (me : Party) (bytes : List ℕ) → 0 < every → opening judge f clients every me bytes ≡ judged judge f clients me (message_of bytes) }
    ensures alike { (judge : Judge) (f clients every other : ℕ) (me : Party) (bytes : List ℕ) → ((m : Message) → message_of bytes ≡ Ok m → holds_trimmed m ≡ false)
        → opening judge f clients every me bytes ≡ opening judge f clients other me bytes }
{}
