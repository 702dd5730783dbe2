ghost use Rattle.std.specs.Prelude.{◌≡◌, ℕ, List, reverse};
ghost use Rattle.object_operations.specs.declared.ending.Completion.{Completion};
ghost use Rattle.object_operations.specs.declared.ending.Env.{Env};
ghost use Rattle.object_operations.specs.declared.operation.Operation.{Operation};
ghost use Rattle.side_trees.specs.Trees.{Return, bind};
ghost use Rattle.language_rules.specs.Beginnings.{while_begins};
ghost use Rattle.language_rules.specs.Codes.{Code, Give, Step, Then};
ghost use Rattle.language_rules.specs.Going.{RuleTree, and_then, carry, operates};
ghost use Rattle.language_rules.specs.Rules.{expand};
ghost use Rattle.language_rules.specs.States.{State};
ghost use Rattle.eval_frames.specs.declared.frame.Frame.{Frame};
ghost use Rattle.eval_frames.specs.declared.frame.Decision.TheVariants as decision;
ghost use Rattle.eval_frames.specs.declared.frame.ExpressionFrame.TheVariants as expression_frame;
ghost use Rattle.eval_frames.specs.declared.frame.Frame.TheVariants as frame;
ghost use Rattle.eval_frames.specs.Meaning.{RunsAs, rest, resume, tests};

/// A turn of a `while` is its test, over a frame that waits for the test's value.
pub fn a_loop_tests_again()
    ensures { (s : State) (env : Env) (test body : ℕ) (k : Completion → RuleTree) → RunsAs s (bind (while_begins env test body) k) (tests env test body k) }
{}

/// What waits for a computation may as well stand on the stack.
pub fn what_waits_is_pushed()
    ensures { (t : RuleTree) (f : Frame) (k : Completion → RuleTree) → bind (bind t (resume f)) k ≡ bind t (λ a. bind (resume f a) k) }
{}

/// A piece of code that goes on with an operation's answer may as well wait for it.
pub fn code_that_goes_on_waits()
    ensures { (s : State) (o : Operation) (c : Completion → Code) (k : Completion → RuleTree) → RunsAs s (bind (operates o c (λ a. Return a)) k) (bind (operates o (λ a. Give a) (λ a. expand (c a))) k) }
{}

/// A piece of code that goes on with an operation's answer, and then another, may as well stand one behind the other.
pub fn code_between_goes_on()
    ensures { (s : State) (o : Operation) (c f : Completion → Code) (k : Completion → RuleTree) → RunsAs s (bind (operates o (λ a. Then (c a) f) (λ a. Return a)) k) (bind (operates o c (λ a. Return a)) (λ r. bind (expand (f r)) k)) }
{}

/// A step that goes on with another may as well end, and the other go on behind it.
#[tactic(auto, using(crate::proofs::Operating::step_behind))]
pub fn a_step_behind_another_waits()
    ensures { (s : State) (t : Step) (f : Completion → Step) (k : Completion → RuleTree) → RunsAs s (bind (carry (and_then t f)) k) (bind (carry t) (λ a. bind (carry (f a)) k)) }
{}
