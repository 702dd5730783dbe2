use crate::class_frame::ClassFrame;
use crate::handler_frame::HandlerFrame;
use crate::list_frames::{AdditionFrame, EqualityFrame, SearchFrame, TextFrame};
use crate::loop_frames::{DrainFrame, ForFrame};
use crate::method_frame::MethodFrame;
use crate::object_frames::{ComparisonFrame, OperationFrame, PrintingFrame};
use crate::target_frame::TargetFrame;
use object_operations::Env;
use py_ast::{Builtin, Comparison, Link};
use rp_base::{BinaryOp, ExcKind, Text, UnaryOp, Value};
use sqlite_items::Items;

/// Two values that are compared.
#[derive(Drop)]
pub struct ValuePair {
    pub left: Value,
    pub right: Value,
}

/// What is still to be tested behind an answer that is true or not. Pairs and values stand the last first.
#[derive(Drop)]
pub enum TestLevel {
    /// Whether all pairs from the next on are equal too.
    Pairs {
        waiting: Items<ValuePair>,
    },
    /// Whether a value is found among the items from the next on.
    Search {
        wanted: Value,
        waiting: Items<Value>,
    },
}

/// What is done by the truth of a value. Numbers and links that wait stand the last first.
#[derive(Drop)]
pub enum Decision {
    /// The operands of an `or` from the next on.
    Or {
        env: Env,
        next: u32,
        waiting: Items<u32>,
    },
    /// The operands of an `and` from the next on.
    And {
        env: Env,
        next: u32,
        waiting: Items<u32>,
    },
    Not,
    Conditional {
        env: Env,
        then: u32,
        otherwise: u32,
    },
    /// The links of a chain from the next on, behind an operand.
    Link {
        env: Env,
        left: Value,
        next: Link,
        waiting: Items<Link>,
    },
    If {
        env: Env,
        then: u32,
        otherwise: Option<u32>,
    },
    While {
        env: Env,
        test: u32,
        body: u32,
    },
    /// The truth itself is the value.
    Bool,
    /// What is still to be tested, level by level: the truth of what one tells goes to the one around it, the innermost last.
    Levels {
        levels: Items<TestLevel>,
    },
}

/// What is made of values that are evaluated one after another.
#[derive(Clone, Copy, Debug, PartialEq, Eq)]
pub enum Gathering {
    Tuple,
    List,
    /// Keys and values in turn.
    Dict,
    Builtin(Builtin),
    /// An exception of this kind, which has the values as its arguments.
    Raise(ExcKind),
}

/// What waits for the value of an expression within an expression.
#[derive(Drop)]
pub enum ExpressionFrame {
    /// The values so far, and the numbers of the expressions that are still to be evaluated.
    Operands {
        env: Env,
        gathering: Gathering,
        values: Items<Value>,
        waiting: Items<u32>,
    },
    Unary(UnaryOp),
    BinaryLeft {
        env: Env,
        op: BinaryOp,
        right: u32,
    },
    BinaryRight {
        op: BinaryOp,
        left: Value,
    },
    ItemReceiver {
        env: Env,
        key: u32,
    },
    ItemKey {
        receiver: Value,
    },
    /// A chain of comparisons, before its first operand.
    ChainFirst {
        env: Env,
        waiting: Items<Link>,
    },
    /// A link of a chain, before its right operand.
    ChainRight {
        env: Env,
        left: Value,
        comparison: Comparison,
        waiting: Items<Link>,
    },
    /// The callee of a call, in front of its arguments.
    Callee {
        env: Env,
        waiting: Items<u32>,
    },
    /// The arguments of a call so far, and the numbers of those that are still to be evaluated.
    Arguments {
        env: Env,
        callee: Value,
        values: Items<Value>,
        waiting: Items<u32>,
    },
    /// The receiver of an attribute.
    Attribute {
        name: Text,
    },
}

/// What waits for the value of an expression, or for the end of a statement, within a statement.
#[derive(Drop)]
pub enum StatementFrame {
    Alone,
    Suite {
        env: Env,
        waiting: Items<u32>,
    },
    Assign {
        env: Env,
        target: u32,
    },
    /// An augmented assignment to a name, before its right side.
    AugmentName {
        env: Env,
        op: BinaryOp,
        name: Text,
        old: Value,
    },
    /// The value goes to a name.
    BindName {
        env: Env,
        name: Text,
    },
    Return,
}

/// What waits for the end of a piece of code.
#[derive(Drop)]
pub enum Frame {
    Expression(ExpressionFrame),
    Statement(StatementFrame),
    Handler(HandlerFrame),
    Operation(OperationFrame),
    Comparison(ComparisonFrame),
    Printing(PrintingFrame),
    Target(TargetFrame),
    For(ForFrame),
    Drain(DrainFrame),
    Search(SearchFrame),
    Equality(EqualityFrame),
    Addition(AdditionFrame),
    Text(TextFrame),
    Method(MethodFrame),
    Class(ClassFrame),
    /// The truth of the value decides.
    Test(Decision),
    /// The truth of this value was asked of an object.
    Truth { decision: Decision, value: Value },
    /// The suite of a `while`.
    While { env: Env, test: u32, body: u32 },
    /// The body of a function in which another one stands.
    Call,
    /// The body of any other function, whose scope is emptied: nothing can read it after the call.
    EmptiedCall { scope: u32, parent: u32 },
}
