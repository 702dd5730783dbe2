ghost use Rattle.std.specs.Prelude.{◌≡◌, ℕ, Some, true};
ghost use Rattle.rp_base.specs.declared.exceptions.Beyond.TheVariants as beyond;
ghost use Rattle.rp_base.specs.declared.exceptions.Raised.{Raised};
ghost use Rattle.rp_base.specs.declared.identity.IdPack.{IdPack};
ghost use Rattle.rp_base.specs.declared.value.Value.{Value};
ghost use Rattle.language_rules.specs.Boxing.{boxed, unboxed, crossed};
ghost use Rattle.language_rules.specs.Codes.{Code, Completion, Gives, Raises};
ghost use Rattle.language_rules.specs.ExceptionContents.{exception_content, raised_in};
ghost use Rattle.language_rules.specs.Going.{RuleTree, judged_arguments, operates, too_heavy};
ghost use Rattle.side_trees.specs.Growing.{Growth};
ghost use Rattle.side_trees.specs.Trees.{Stop};
ghost use Rattle.side_trees.specs.Joining.{OneIsTwo, OneHeap};
ghost use Rattle.side_trees.specs.SharedUnits.{PairComes, PairEndsAsOne, PairRests};
ghost use Rattle.language_rules.specs.Conversation.{script_language, one_heap};
ghost use Rattle.language_rules.specs.Messages.{request_of, answer_of, code_of, completion_of, asked_code};
ghost use Rattle.language_rules.specs.States.{State};
ghost use Rattle.object_operations.specs.declared.operation.Operation.{Operation};
ghost use Rattle.py_store.specs.Identities.{identity_of};

/// A side is a function of what it reads and begins, and grows with them.
pub fn sides_grow()
    ensures { Growth script_language }
{}

/// The one interpreter is two sides that exchange messages.
pub fn one_interpreter_is_two_sides()
    ensures { OneIsTwo script_language one_heap }
{}

/// A run over the one heap is a run over its two parts.
pub fn one_heap_is_two_parts()
    ensures { OneHeap script_language one_heap }
{}

/// Two sides that draw their units from one number end as the one interpreter does, whatever is read first.
pub fn two_sides_end_as_one()
    ensures { PairEndsAsOne script_language one_heap }
{}

/// Two such sides can always be carried on until all is read, and each course of the one interpreter has two such sides.
pub fn two_sides_come_to_rest()
    ensures rests { PairRests script_language one_heap }
    ensures comes { PairComes script_language one_heap }
{}

/// What a side boxes, the other reads as the value that it sees: a cell of the sender by its identity, one of its own by
/// its number.
pub fn boxes_are_read()
    ensures { (ids : ℕ → IdPack) (v : Value) → unboxed (boxed ids v) ≡ Some (crossed ids v) }
{}

/// What a side writes of an exception, the other reads as that exception.
pub fn exceptions_are_read()
    ensures { (r : Raised) → raised_in (exception_content r) ≡ r }
{}

/// A request is read as the operation that was asked, as the other side sees it: each value in it crosses, and names and
/// operators stay.
pub fn requests_are_read()
    ensures { (s : State) (o : Operation) → code_of (request_of s o) ≡ asked_code (identity_of s.cells) o }
{}

/// An answer is read as the end that it tells of: a value as the other side sees it, an exception as it is.
pub fn answers_are_read()
    ensures value { (s : State) (v : Value) → completion_of (answer_of s (Gives v)) ≡ Gives (crossed (identity_of s.cells) v) }
    ensures exception { (s : State) (r : Raised) → completion_of (answer_of s (Raises r)) ≡ Raises r }
{}

/// An operation whose arguments are together heavier than a value may be is neither carried out nor asked.
pub fn heavy_arguments_end_the_run()
    ensures { (o : Operation) (c : Completion → Code) (k : Completion → RuleTree) → too_heavy (judged_arguments o) ≡ true → operates o c k ≡ Stop beyond.Size }
{}
