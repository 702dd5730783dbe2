ghost use Rattle.std.specs.Prelude.{◌≡◌, IfOk, codes};
ghost use Rattle.py_ast.specs.Builtins.{builtin_of};
ghost use Rattle.py_parser.specs.BuildingExpressions.{attribute, binary, byte_string, call, compare, conditional, constant, empty_tuple, int, inverse, item, listed, name_tree, named, text, tuple, unary};

use crate::builder::Building;
use crate::parts::{Form, Gathering};
use py_ast::{Builtin, Expression, Node};
use py_literals::{bytes_literal, int_literal, text_literal};
use rp_base::{NoMemory, Plain, Text};
use sqlite_items::Items;
use std::alloc::Global;

impl Building<'_> {
    pub(super) fn name_tree(&mut self, alloc: Global) -> Result<(), NoMemory>
        ensures { IfOk result (λ _. self.new ≡ name_tree self.old) }
    {
        let expression = named(alloc, self.word.as_str())?;
        self.push_place(expression, self.line, self.line)
    }

    pub(super) fn constant(&mut self, value: Plain) -> Result<(), NoMemory>
        ensures { IfOk result (λ _. self.new ≡ constant value self.old) }
    {
        self.push_value(Expression::Constant(value), self.line)
    }

    pub(super) fn int(&mut self) -> Result<(), NoMemory>
        ensures { IfOk result (λ _. self.new ≡ int self.old) }
    {
        let Some(number) = int_literal(self.word.as_str().as_bytes()) else {
            return self.stop();
        };
        self.constant(Plain::Int(number))
    }

    pub(super) fn text(&mut self, alloc: Global) -> Result<(), NoMemory>
        ensures { IfOk result (λ _. self.new ≡ text self.old) }
    {
        let Some(text) = text_literal(alloc, self.word.as_str())? else {
            return self.stop();
        };
        self.constant(Plain::Text(text))
    }

    pub(super) fn byte_string(&mut self, alloc: Global) -> Result<(), NoMemory>
        ensures { IfOk result (λ _. self.new ≡ byte_string self.old) }
    {
        let Some(bytes) = bytes_literal(alloc, self.word.as_str().as_bytes())? else {
            return self.stop();
        };
        self.constant(Plain::Bytes(bytes))
    }

    pub(super) fn attribute(&mut self, alloc: Global) -> Result<(), NoMemory>
        ensures { IfOk result (λ _. self.new ≡ attribute self.old.trees self.old) }
    {
        let Some(receiver) = self.trees.pop() else {
            return self.stop();
        };
        let expression = Expression::Attribute {
            receiver: receiver.number,
            name: Text::from_str(alloc, self.word.as_str())?,
        };
        self.push_place(expression, self.line, receiver.line)
    }

    pub(super) fn item(&mut self) -> Result<(), NoMemory>
        ensures { IfOk result (λ _. self.new ≡ item self.old.trees self.old) }
    {
        let (Some(key), Some(receiver)) = (self.trees.pop(), self.trees.pop()) else {
            return self.stop();
        };
        let expression = Expression::Item {
            receiver: receiver.number,
            key: key.number,
        };
        self.push_place(expression, receiver.line, receiver.line)
    }

    pub(super) fn call(&mut self) -> Result<(), NoMemory>
        ensures { IfOk result (λ _. self.new ≡ call self.old.trees self.old.lists self.old) }
    {
        let (Some(callee), Some(arguments)) = (self.trees.pop(), self.lists.pop()) else {
            return self.stop();
        };
        let expression = Expression::Call {
            callee: callee.number,
            arguments: arguments.numbers,
        };
        self.push_value(expression, callee.line)
    }

    pub(super) fn conditional(&mut self) -> Result<(), NoMemory>
        ensures { IfOk result (λ _. self.new ≡ conditional self.old.trees self.old) }
    {
        let (Some(otherwise), Some(test), Some(then)) = (
            self.trees.pop(),
            self.trees.pop(),
            self.trees.pop(),
        ) else {
            return self.stop();
        };
        let expression = Expression::Conditional {
            then: then.number,
            test: test.number,
            otherwise: otherwise.number,
        };
        self.push_value(expression, then.line)
    }

    pub(super) fn inverse(&mut self) -> Result<(), NoMemory>
        ensures { IfOk result (λ _. self.new ≡ inverse self.old.trees self.old.marks self.old) }
    {
        let (Some(operand), Some(line)) = (self.trees.pop(), self.marks.pop()) else {
            return self.stop();
        };
        self.push_value(Expression::Not(operand.number), line)
    }

    pub(super) fn binary(&mut self) -> Result<(), NoMemory>
        ensures { IfOk result (λ _. self.new ≡ binary self.old.trees self.old.signs self.old) }
    {
        let (Some(right), Some(left), Some(op)) = (
            self.trees.pop(),
            self.trees.pop(),
            self.signs.pop(),
        ) else {
            return self.stop();
        };
        let expression = Expression::Binary {
            op,
            left: left.number,
            right: right.number,
        };
        self.push_value(expression, left.line)
    }

    pub(super) fn unary(&mut self) -> Result<(), NoMemory>
        ensures { IfOk result (λ _. self.new ≡ unary self.old.trees self.old.unary_signs self.old.marks self.old) }
    {
        let (Some(operand), Some(op), Some(line)) = (
            self.trees.pop(),
            self.unary_signs.pop(),
            self.marks.pop(),
        ) else {
            return self.stop();
        };
        let expression = Expression::Unary {
            op,
            operand: operand.number,
        };
        self.push_value(expression, line)
    }

    pub(super) fn compare(&mut self) -> Result<(), NoMemory>
        ensures { IfOk result (λ _. self.new ≡ compare self.old.trees self.old.links self.old) }
    {
        let (Some(first), Some(links)) = (self.trees.pop(), self.links.pop()) else {
            return self.stop();
        };
        let expression = Expression::Compare {
            first: first.number,
            links,
        };
        self.push_value(expression, first.line)
    }

    /// A chain of `or`.
    pub(super) fn either(&mut self) -> Result<(), NoMemory>
        ensures { IfOk result (λ _. self.new ≡ listed Expression.Or self.old.lists self.old) }
    {
        let Some(list) = self.lists.pop() else {
            return self.stop();
        };
        self.push_value(Expression::Or(list.numbers), list.line)
    }

    /// A chain of `and`.
    pub(super) fn both(&mut self) -> Result<(), NoMemory>
        ensures { IfOk result (λ _. self.new ≡ listed Expression.And self.old.lists self.old) }
    {
        let Some(list) = self.lists.pop() else {
            return self.stop();
        };
        self.push_value(Expression::And(list.numbers), list.line)
    }

    pub(super) fn list(&mut self) -> Result<(), NoMemory>
        ensures { IfOk result (λ _. self.new ≡ listed Expression.List self.old.lists self.old) }
    {
        let Some(list) = self.lists.pop() else {
            return self.stop();
        };
        self.push_value(Expression::List(list.numbers), list.line)
    }

    pub(super) fn dict(&mut self) -> Result<(), NoMemory>
        ensures { IfOk result (λ _. self.new ≡ listed Expression.Dict self.old.lists self.old) }
    {
        let Some(list) = self.lists.pop() else {
            return self.stop();
        };
        self.push_value(Expression::Dict(list.numbers), list.line)
    }

    pub(super) fn tuple(&mut self) -> Result<(), NoMemory>
        ensures { IfOk result (λ _. self.new ≡ tuple self.old.lists self.old) }
    {
        let Some(list) = self.lists.pop() else {
            return self.stop();
        };
        let node = Node::Expression(Expression::Tuple(list.numbers));
        self.push_tree(node, list.line, list.line, list.form)
    }

    pub(super) fn empty_tuple(&mut self, alloc: Global) -> Result<(), NoMemory>
        ensures { IfOk result (λ _. self.new ≡ empty_tuple self.old) }
    {
        self.push_value(Expression::Tuple(Items::new(alloc)), self.line)
    }
}

/// What a name stands for: a builtin, `NotImplemented`, or what it is bound to.
fn named(alloc: Global, word: &str) -> Result<Expression, NoMemory>
    ensures { IfOk result (λ e. e ≡ named (builtin_of word.now) word.now) }
{
    if let Some(builtin) = Builtin::from_name(word.as_bytes()) {
        return Ok(Expression::Builtin(builtin));
    }
    if word == "NotImplemented" {
        return Ok(Expression::Constant(Plain::NotImpl));
    }
    Ok(Expression::Name(Text::from_str(alloc, word)?))
}
