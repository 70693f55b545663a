//! What holds of key texts.

ghost use Rattle.std.specs.Prelude.{◌≡◌, ◌≤◌, ◌-◌, ◌⊎◌, ◌++◌, ℕ, List, Ok, Err, IsTrue, take};
ghost use Rattle.ab_key_text.specs.Faults.{seen};
ghost use Rattle.ab_key_text.specs.declared.fault.NodeFault.TheVariants.{BadLine, NoEnd};
ghost use Rattle.ab_num.specs.declared.party.Party.{Party as TheParty};
ghost use Rattle.ab_num.specs.declared.plan.Plan.{Plan as ThePlan};
ghost use Rattle.ab_num.specs.declared.plan.ServiceName.{ServiceName as Service};
ghost use Rattle.ab_num.specs.declared.plan.Scheme.{Scheme as TheScheme};
ghost use Rattle.ab_num.specs.Bounds.{IsInBounds};
ghost use Rattle.ab_keys.specs.Keys.{is_party};
ghost use Rattle.ab_text.specs.Heads.{most_built};
ghost use Rattle.ab_text.specs.Lines.{lines_of};
ghost use Rattle.ab_key_text.specs.Derived.{keys_of};
ghost use Rattle.ab_key_text.specs.Keys.{IsWhole, IsPartyKeys, PartyKeys as TheKeys};
ghost use Rattle.ab_key_text.specs.Nodes.{AreCommandsOf, IsNodeText, NodeText, command_lines, commands_in, node_in, node_lines};
ghost use Rattle.ab_key_text.specs.Reading.{keys_in};
ghost use Rattle.ab_key_text.specs.Spelling.{key_lines};
ghost use Rattle.ab_text.specs.Texts.{text_of};

/// What is spelled as the keys of a party is read as these keys.
pub fn spelled_is_read()
    ensures { (k : TheKeys) → IsPartyKeys k → keys_in (key_lines k) ≡ Ok k }
{}

/// What is spelled as the text of a node is read as it, and so is what is spelled as a client's commands alone.
pub fn spelled_nodes_are_read()
    ensures nodes { (n : NodeText) → IsNodeText n → node_in (node_lines n) ≡ Ok n }
    ensures commands { (cs : List (List ℕ)) → AreCommandsOf (TheParty.Client 0) cs → commands_in (command_lines cs) ≡ Ok cs }
{}

/// What is read is spelled by the lines, and is in form. So no two texts give the same keys and commands.
pub fn read_is_spelled()
    ensures keys { (ls : List (List ℕ)) (k : TheKeys) → keys_in ls ≡ Ok k → (ls ≡ key_lines k) × IsPartyKeys k }
    ensures nodes { (ls : List (List ℕ)) (n : NodeText) → node_in ls ≡ Ok n → (ls ≡ node_lines n) × IsNodeText n }
    ensures commands { (ls cs : List (List ℕ)) → commands_in ls ≡ Ok cs → (ls ≡ command_lines cs) × AreCommandsOf (TheParty.Client 0) cs }
{}

/// A bad line is the first: no text in form begins with the lines that show that it is bad, and the lines before it are those of a
/// text, or have no fault but their end.
pub fn fault_is_first()
    ensures bad { (ls more : List (List ℕ)) (n : ℕ) (k : TheKeys) → keys_in ls ≡ Err (BadLine n) → IsPartyKeys k → key_lines k ≡ take (seen n) ls ++ more → ⊥ }
    ensures before { (ls : List (List ℕ)) (n : ℕ) → keys_in ls ≡ Err (BadLine n) → 1 ≤ n
        → (keys_in (take (n - 1) ls) ≡ Err (NoEnd n)) ⊎ ((k : TheKeys) × (keys_in (take (n - 1) ls) ≡ Ok k)) }

    ensures bad_node { (ls more : List (List ℕ)) (n : ℕ) (t : NodeText) → node_in ls ≡ Err (BadLine n) → IsNodeText t → node_lines t ≡ take (seen n) ls ++ more → ⊥ }
    ensures before_node { (ls : List (List ℕ)) (n : ℕ) → node_in ls ≡ Err (BadLine n) → 1 ≤ n
        → (node_in (take (n - 1) ls) ≡ Err (NoEnd n)) ⊎ ((t : NodeText) × (node_in (take (n - 1) ls) ≡ Ok t)) }

    ensures bad_commands { (ls more : List (List ℕ)) (n : ℕ) (cs : List (List ℕ)) → commands_in ls ≡ Err (BadLine n) → AreCommandsOf (TheParty.Client 0) cs
        → command_lines cs ≡ take (seen n) ls ++ more → ⊥ }
    ensures before_commands { (ls : List (List ℕ)) (n : ℕ) → commands_in ls ≡ Err (BadLine n) → 1 ≤ n
        → (commands_in (take (n - 1) ls) ≡ Err (NoEnd n)) ⊎ ((cs : List (List ℕ)) × (commands_in (take (n - 1) ls) ≡ Ok cs)) }
{}

/// What is written of the keys of a party is read as these keys.
pub fn written_is_read()
    ensures { (k : TheKeys) → IsPartyKeys k → keys_in (lines_of (text_of (key_lines k))) ≡ Ok k }
{}

/// What is written of a node is read as it.
pub fn written_nodes_are_read()
    ensures { (n : NodeText) → IsNodeText n → node_in (lines_of (text_of (node_lines n))) ≡ Ok n }
{}

/// The keys that a node's text or a seed gives are whole: a replica's secret is among them, and a public
/// key of each replica.
pub fn keys_are_whole()
    ensures read { (ls : List (List ℕ)) (n : NodeText) → node_in ls ≡ Ok n → IsWhole n.keys }
    ensures derived { (f clients : ℕ) (plan : ThePlan) (every : ℕ) (service : Service) (lms : TheScheme) (seed : List ℕ) (me : TheParty) → IsWhole (keys_of f clients plan every service lms seed me) }
{}

/// The keys that a seed gives to a party of a cluster are in form, if its checkpoints are built. So what is
/// written of them is read as these keys.
pub fn derived_keys_are_in_form()
    ensures { (f clients : ℕ) (plan : ThePlan) (every : ℕ) (service : Service) (lms : TheScheme) (seed : List ℕ) (me : TheParty)
        → IsInBounds f clients → every ≤ most_built plan → IsTrue (is_party f clients me) → IsPartyKeys (keys_of f clients plan every service lms seed me) }
{}
