/// The words of the grammar: what is written by one of several ways.
#[derive(Clone, Copy, Debug, PartialEq, Eq)]
pub enum Word {
    /// Any number of statements.
    Statements,
    /// A statement with its line end or suites.
    Statement,
    /// What may stand behind the suite of an `if`: `elif` or `else`.
    IfTail,
    /// The clauses of a `try`.
    TryTail,
    /// An `except` clause.
    Handler,
    /// Further `except` clauses.
    HandlersTail,
    /// What an `except` names.
    Caught,
    /// `as` and a name.
    AsName,
    /// A `finally` clause.
    Final,
    /// A `finally` clause behind `except` clauses.
    FinalTail,
    /// The parameters of a `def`.
    Parameters,
    /// A comma, and further parameters.
    ParametersTail,
    /// The base of a class.
    Base,
    /// What a colon opens.
    Suite,
    /// A statement on one line.
    Simple,
    /// What may stand behind the list that a statement begins with.
    SimpleTail,
    /// What a `return` returns.
    ReturnTail,
    /// What a `raise` names.
    RaiseTail,
    /// Its arguments.
    RaiseArguments,
    /// Further names.
    NamesTail,
    /// The targets of a `for`.
    Targets,
    /// A comma, and further targets.
    TargetsTail,
    /// Targets of a tuple.
    TargetItems,
    /// A comma, and further targets of a tuple.
    TargetItemsTail,
    /// A name, an attribute or an item.
    Target,
    /// What goes on behind what is a target already.
    TargetTail,
    /// An attribute or an item.
    Place,
    /// What makes a target of an atom.
    PlaceTail,
    /// A list: an expression, or a tuple without parentheses.
    Exprs,
    /// A comma, and further items.
    ExprsTail,
    /// Items of a display or a tuple.
    Items,
    /// A comma, and further items.
    ItemsTail,
    /// An expression.
    Expr,
    /// `if` with its condition, and `else`.
    ExprTail,
    /// The parameters of a `lambda`.
    LambdaNames,
    /// Further parameters of a `lambda`.
    LambdaTail,
    /// A chain of `or`.
    Either,
    /// The links of such a chain.
    EitherTail,
    /// Its links behind the first.
    EitherMore,
    /// A chain of `and`.
    Both,
    /// The links of such a chain.
    BothTail,
    /// Its links behind the first.
    BothMore,
    /// `not`.
    Inverse,
    /// A chain of comparisons.
    Compare,
    /// The links of such a chain.
    CompareTail,
    /// Its links behind the first.
    CompareMore,
    /// A comparison with its right side.
    Link,
    /// What stands behind `is`.
    IsRight,
    /// Operands of `|`.
    Bits,
    /// `|` and its right sides.
    BitsTail,
    /// Operands of `^`.
    Differences,
    /// `^` and its right sides.
    DifferencesTail,
    /// Operands of `&`.
    Commons,
    /// `&` and its right sides.
    CommonsTail,
    /// Operands of `<<` and `>>`.
    Shifts,
    /// `<<`, `>>` and their right sides.
    ShiftsTail,
    /// Operands of `+` and `-`.
    Sums,
    /// `+`, `-` and their right sides.
    SumsTail,
    /// Operands of `*`, `/`, `//` and `%`.
    Products,
    /// `*`, `/`, `//`, `%` and their right sides.
    ProductsTail,
    /// A unary sign, or a power.
    Unary,
    /// A power.
    Power,
    /// `**` and its right side.
    PowerTail,
    /// An atom with attributes, items and calls.
    Postfix,
    /// Attributes, items and calls.
    PostfixTail,
    /// The arguments of a call.
    Arguments,
    /// A comma, and further arguments.
    ArgumentsTail,
    /// A name, or another atom.
    Atom,
    /// An atom that is no name.
    Other,
    /// What stands in parentheses.
    Inside,
    /// The entries of a dict display.
    Pairs,
    /// A comma, and further entries.
    PairsTail,
    /// The line end behind an expression that is a whole text.
    LineEnd,
}
