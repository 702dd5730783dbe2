/// What is built at a place of a way. It works on stacks of parts: trees, lists, names, suites, operators and marks.
/// What makes a tree pushes it.
#[derive(Clone, Copy, Debug, PartialEq, Eq)]
pub enum Act {
    /// Nothing is built.
    Nothing,
    /// Pushes a mark with the line of the last token.
    Mark,
    /// Pushes an empty list with the line of the last token.
    Begin,
    /// Pops a tree, and pushes a list that holds it alone, with its line.
    BeginWith,
    /// Pops a tree, and adds it to the list on top.
    Add,
    /// Pushes an empty list of names.
    BeginNames,
    /// Adds the last token, a name with its line, to the list of names on top.
    AddName,
    /// Pushes the last token, a name with its line.
    Name,
    /// Pushes that no name stands there.
    NoName,
    /// Pushes an empty list of links.
    BeginLinks,
    /// Pops a tree and a comparison, and adds both to the list of links on top.
    AddLink,
    /// Pushes the last token as a binary operator; of an augmented sign, the operator in it.
    BinarySign,
    /// Pushes the last token as a unary operator with its line.
    UnarySign,
    /// Pushes the last token as a comparison with its line; `not` stands for `not in`.
    ComparisonSign,
    /// The comparison on top, `is`, becomes `is not`.
    Negate,
    /// Pops a list: a suite.
    MakeSuite,
    /// Pushes that no suite stands there.
    NoSuite,
    /// Pops a suite, a name or none, a list of names and a mark: a handler.
    MakeHandler,
    /// Pops the suite of `else` or none, a suite, a condition and a mark: an `if` statement.
    MakeIf,
    /// The same, and pushes the statement as the suite of an `else`.
    MakeElif,
    /// Pops a suite, a condition and a mark: a `while` statement.
    MakeWhile,
    /// Pops a suite, what is gone through, the target and a mark: a `for` statement.
    MakeFor,
    /// Pops the suite of `finally` or none, the list of handlers, a suite and a mark: a `try` statement.
    MakeTry,
    /// A function begins; functions are numbered so.
    BeginDef,
    /// Pops a suite, the list of parameters, a name and a mark: a `def` statement. Its function ends.
    MakeDef,
    /// Pops a suite, a base or none, a name and a mark: a `class` statement.
    MakeClass,
    /// A `pass` statement, on the line of the last token.
    MakePass,
    /// A `break` statement, on the line of the last token.
    MakeBreak,
    /// A `continue` statement, on the line of the last token.
    MakeContinue,
    /// Pops a tree and a mark: a `return` statement.
    MakeReturn,
    /// Pops a mark: a `return` statement without a value.
    MakeReturnNone,
    /// Pops a mark: a bare `raise`.
    MakeReraise,
    /// Pops a name and a mark: a `raise` without parentheses.
    MakeRaiseName,
    /// Pops the list of arguments, a name and a mark: a `raise` with parentheses.
    MakeRaise,
    /// Pops a list of names and a mark: a `global` statement.
    MakeGlobal,
    /// Pops a list of names and a mark: a `nonlocal` statement.
    MakeNonlocal,
    /// Pops a place and a mark: a `del` statement.
    MakeDel,
    /// Pops a tree: an expression as a statement.
    MakeExpression,
    /// Pops a value and the targets: an assignment.
    MakeAssign,
    /// Pops a value, an operator and a target: an augmented assignment.
    MakeAugmented,
    /// Pops a list: a tuple without parentheses.
    MakeTuple,
    /// The tuple with no item, on the line of the last token.
    MakeEmptyTuple,
    /// Pops a tree and a mark: the same tree in parentheses, on the line of the mark.
    MakeWithin,
    /// The last token as a name.
    MakeName,
    /// None, the last token.
    MakeNone,
    /// True, the last token.
    MakeTrue,
    /// False, the last token.
    MakeFalse,
    /// `...`, the last token.
    MakeEllipsis,
    /// The last token as an int.
    MakeInt,
    /// The last token as a text.
    MakeText,
    /// The last token as bytes.
    MakeBytes,
    /// Pops a tree: its attribute of the name that the last token is.
    MakeAttribute,
    /// Pops an index and a tree: an item.
    MakeItem,
    /// Pops the list of arguments and what is called: a call.
    MakeCall,
    /// The function of a lambda begins.
    BeginLambda,
    /// Pops a body, the list of parameters and a mark: a lambda. Its function ends.
    MakeLambda,
    /// Pops the last branch, the condition and the first branch: a conditional.
    MakeConditional,
    /// Pops a list: a chain of `or`.
    MakeOr,
    /// Pops a list: a chain of `and`.
    MakeAnd,
    /// Pops a tree and a mark: a `not`.
    MakeNot,
    /// Pops a list of links and the first operand: a chain of comparisons.
    MakeCompare,
    /// Pops the right side, an operator and the left side: a binary operation.
    MakeBinary,
    /// Pops an operand and an operator: a unary operation.
    MakeUnary,
    /// Pops a list: a list display.
    MakeList,
    /// Pops a list in which keys and values take turns: a dict display.
    MakeDict,
}
