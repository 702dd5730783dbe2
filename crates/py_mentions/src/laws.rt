ghost use Rattle.std.specs.Prelude.{◌≡◌, ◌↔◌, [], List, None, Some};
ghost use Rattle.rp_base.specs.declared.rules.Refused.{Refused};
ghost use Rattle.py_ast.specs.declared.program.Program.{Program};
ghost use Rattle.py_mentions.specs.declared.mention.Mention.{Mention};
ghost use Rattle.py_mentions.specs.Mentions.{mentions_at};
ghost use Rattle.py_mentions.specs.Rules.{broken_at};
ghost use Rattle.py_mentions.specs.Standing.{IsFound};
ghost use Rattle.py_mentions.specs.Walks.{broken_in, mentions_in};
ghost use Rattle.py_mentions.specs.Worst.{IsIn, IsWorst, worst};

/// The mentions in a script are those at its nodes, where they stand, and so are the places that break a rule.
pub fn each_node_is_visited()
    ensures mentions { (p : Program) → (m : Mention) → IsIn m (mentions_in p) ↔ IsFound p (mentions_at p) m }
    ensures broken { (p : Program) → (r : Refused) → IsIn r (broken_in p) ↔ IsFound p (broken_at p) r }
{}

/// The worst of some refusals is one of them, and none of them has a lesser line, or the same line and a lesser rule. Where
/// there is no worst, there is none at all.
pub fn nothing_precedes_the_worst()
    ensures worst { (rs : List Refused) → (w : Refused) → worst rs ≡ Some w → IsWorst rs w }
    ensures none { (rs : List Refused) → worst rs ≡ None → rs ≡ [] }
{}
