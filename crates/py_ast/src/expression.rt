ghost use Rattle.std.specs.Prelude.{◌≡◌, IfOk};

use crate::builtin::Builtin;
use crate::copying::{copy_links, copy_numbers};
use rp_base::{BinaryOp, CmpOp, NoMemory, Plain, Text, UnaryOp};
use sqlite_items::Items;
use std::alloc::Global;

/// What a link of a chain of comparisons asks.
#[derive(Clone, Copy, Debug, PartialEq, Eq)]
pub enum Comparison {
    Order(CmpOp),
    In,
    NotIn,
    Is,
    IsNot,
}

/// A link of a chain of comparisons: the sign with its line, and the number of the operand behind it.
#[derive(Clone, Copy, Debug, PartialEq, Eq)]
pub struct Link {
    pub comparison: Comparison,
    pub line: u32,
    pub right: u32,
}

/// An expression, with its parts as numbers of nodes in written order (Python Language Reference, "Expressions").
/// Parentheses are no node.
#[derive(Drop)]
pub enum Expression {
    Name(Text),
    /// The name of a builtin function. It is called, and no value of its own.
    Builtin(Builtin),
    /// An int, a text, a byte string, `None`, `True`, `False`, `...` or `NotImplemented`.
    Constant(Plain),
    Tuple(Items<u32>),
    List(Items<u32>),
    /// Keys and values in turn.
    Dict(Items<u32>),
    /// The number of its function.
    Lambda(u32),
    /// `then if test else otherwise`.
    Conditional {
        then: u32,
        test: u32,
        otherwise: u32,
    },
    /// A whole chain of `or`: two operands or more.
    Or(Items<u32>),
    /// A whole chain of `and`: two operands or more.
    And(Items<u32>),
    /// A whole chain of comparisons: one link or more.
    Compare {
        first: u32,
        links: Items<Link>,
    },
    Not(u32),
    Unary {
        op: UnaryOp,
        operand: u32,
    },
    Binary {
        op: BinaryOp,
        left: u32,
        right: u32,
    },
    Attribute {
        receiver: u32,
        name: Text,
    },
    Item {
        receiver: u32,
        key: u32,
    },
    Call {
        callee: u32,
        arguments: Items<u32>,
    },
}

impl Expression {
    /// An equal expression of its own.
    pub fn copy(&self, alloc: Global) -> Result<Expression, NoMemory>
        ensures { IfOk result (λ e. e ≡ self.now) }
    {
        match self {
            Expression::Name(text) => Ok(Expression::Name(text.copy(alloc)?)),
            &Expression::Builtin(builtin) => Ok(Expression::Builtin(builtin)),
            Expression::Constant(value) => Ok(Expression::Constant(value.copy(alloc)?)),
            Expression::Tuple(items) => Ok(Expression::Tuple(copy_numbers(items, alloc)?)),
            Expression::List(items) => Ok(Expression::List(copy_numbers(items, alloc)?)),
            Expression::Dict(items) => Ok(Expression::Dict(copy_numbers(items, alloc)?)),
            &Expression::Lambda(function) => Ok(Expression::Lambda(function)),
            &Expression::Conditional {
                then,
                test,
                otherwise,
            } => Ok(Expression::Conditional {
                then,
                test,
                otherwise,
            }),
            Expression::Or(operands) => Ok(Expression::Or(copy_numbers(operands, alloc)?)),
            Expression::And(operands) => Ok(Expression::And(copy_numbers(operands, alloc)?)),
            Expression::Compare { first, links } => Ok(Expression::Compare {
                first: *first,
                links: copy_links(links, alloc)?,
            }),
            &Expression::Not(operand) => Ok(Expression::Not(operand)),
            &Expression::Unary { op, operand } => Ok(Expression::Unary { op, operand }),
            &Expression::Binary { op, left, right } => Ok(Expression::Binary { op, left, right }),
            Expression::Attribute { receiver, name } => Ok(Expression::Attribute {
                receiver: *receiver,
                name: name.copy(alloc)?,
            }),
            &Expression::Item { receiver, key } => Ok(Expression::Item { receiver, key }),
            Expression::Call { callee, arguments } => Ok(Expression::Call {
                callee: *callee,
                arguments: copy_numbers(arguments, alloc)?,
            }),
        }
    }
}
