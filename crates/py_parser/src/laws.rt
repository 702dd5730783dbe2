ghost use Rattle.std.specs.Prelude.{◌≡◌, Bool, List};
ghost use Rattle.py_ast.specs.declared.program.Program.{Program};
ghost use Rattle.py_grammar.specs.declared.symbol.Start.{Start};
ghost use Rattle.rp_base.specs.declared.rules.Refused.{Refused};
ghost use Rattle.py_parser.specs.Parsing.{HasTree, IsFirstMisfit};
ghost use Rattle.py_ast.specs.Parts.{IsNumbered};
ghost use Rattle.py_grammar.specs.declared.symbol.Limits.{Limits};
ghost use Rattle.py_grammar.specs.declared.symbol.Symbol.{Symbol};
ghost use Rattle.py_grammar.specs.Building.{Lexeme};
ghost use Rattle.py_grammar.specs.Deriving.{Derives};
ghost use Rattle.py_parser.specs.declared.builder.Building.{Building};
ghost use Rattle.py_parser.specs.Building.{begun, program_of};
ghost use Rattle.py_parser.specs.BuildingActs.{builder};

/// In the tree of a text each node's parts stand before it, and each number of a line, a function or a body is one.
pub fn trees_are_numbered()
    ensures { (limits : Limits) (symbols : List Symbol) (text : List Lexeme) (out : Building) (is_expression : Bool)
        → Derives Building builder limits symbols begun text out → IsNumbered (program_of is_expression out) }
{}

/// A text has no two trees, and none if a token of it is refused.
pub fn a_text_has_one_answer()
    ensures one_tree { (start : Start) (text : List Lexeme) (one two : Program) → HasTree start text one → HasTree start text two → one ≡ two }
    ensures not_both { (start : Start) (text : List Lexeme) (program : Program) (refused : Refused) → HasTree start text program → IsFirstMisfit start text refused → ⊥ }
{}
