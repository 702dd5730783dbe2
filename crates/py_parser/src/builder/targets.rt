ghost use Rattle.std.specs.Prelude.{◌≡◌, IfOk, OnOk, length, slice_get};
ghost use Rattle.py_parser.specs.BuildingTargets.{aim, assign, augment, delete, loop_over, place_of, tuple_at, with_place, with_places};

use crate::builder::Building;
use crate::parts::{Form, Tree};
use py_ast::{Expression, Node, Statement, Target};
use rp_base::{NoMemory, Plain, Text};
use sqlite_items::Items;
use std::alloc::Global;

impl Building<'_> {
    pub(super) fn assign(&mut self, alloc: Global) -> Result<(), NoMemory>
        ensures { IfOk result (λ _. self.new ≡ assign self.old.trees self.old) }
    {
        let (Some(value), Some(target)) = (self.trees.pop(), self.trees.pop()) else {
            return self.stop();
        };
        self.aim(alloc, target)?;
        let statement = Statement::Assign {
            target: target.number,
            value: value.number,
        };
        self.push_statement(statement, target.line)
    }

    pub(super) fn augment(&mut self, alloc: Global) -> Result<(), NoMemory>
        ensures { IfOk result (λ _. self.new ≡ augment self.old.trees self.old.signs self.old) }
    {
        let (Some(value), Some(target), Some(op)) = (
            self.trees.pop(),
            self.trees.pop(),
            self.signs.pop(),
        ) else {
            return self.stop();
        };
        self.aim(alloc, target)?;
        let statement = Statement::Augmented {
            target: target.number,
            op,
            value: value.number,
        };
        self.push_statement(statement, target.line)
    }

    pub(super) fn delete(&mut self, alloc: Global) -> Result<(), NoMemory>
        ensures { IfOk result (λ _. self.new ≡ delete self.old.trees self.old.marks self.old) }
    {
        let (Some(target), Some(line)) = (self.trees.pop(), self.marks.pop()) else {
            return self.stop();
        };
        self.aim(alloc, target)?;
        self.push_statement(Statement::Delete(target.number), line)
    }

    pub(super) fn loop_over(&mut self, alloc: Global) -> Result<(), NoMemory>
        ensures { IfOk result (λ _. self.new ≡ loop_over self.old.trees self.old.suites self.old.marks self.old) }
    {
        let (Some(source), Some(target)) = (self.trees.pop(), self.trees.pop()) else {
            return self.stop();
        };
        let (Some(Some(body)), Some(line)) = (self.suites.pop(), self.marks.pop()) else {
            return self.stop();
        };
        self.aim(alloc, target)?;
        let statement = Statement::For {
            target: target.number,
            source: source.number,
            body,
        };
        self.push_statement(statement, line)
    }

    /// The tree is a target.
    fn aim(&mut self, alloc: Global, tree: Tree) -> Result<(), NoMemory>
        ensures { IfOk result (λ _. self.new ≡ aim tree self.old) }
    {
        match tree.form {
            Form::Place => set_place(alloc, &mut self.nodes, tree.number),
            Form::Places => set_tuple(alloc, &mut self.nodes, tree.number),
            Form::Value => Ok(()),
        }
    }
}

/// The name, attribute or item of this number becomes a target.
fn set_place(alloc: Global, nodes: &mut Items<Node>, number: u32) -> Result<(), NoMemory>
    ensures place { OnOk result (nodes.new ≡ with_place number nodes.old) }
    ensures size { OnOk result (length nodes.new ≡ length nodes.old) }
{
    let Some(Node::Expression(expression)) = nodes.get(number as usize) else {
        return Ok(());
    };
    let Some(target) = place(alloc, expression)? else {
        return Ok(());
    };
    nodes.set(number as usize, Node::Target(target));
    Ok(())
}

/// The tuple of this number, with its parts, becomes a target.
fn set_tuple(alloc: Global, nodes: &mut Items<Node>, number: u32) -> Result<(), NoMemory>
    ensures { IfOk result (λ _. nodes.new ≡ tuple_at number (slice_get nodes.old number) nodes.old) }
{
    let Some(Node::Expression(Expression::Tuple(parts))) = nodes.get(number as usize) else {
        return Ok(());
    };
    let parts = Items::from_slice(alloc, parts.as_slice())?;
    set_places(alloc, nodes, parts.as_slice())?;
    nodes.set(number as usize, Node::Target(Target::Tuple(parts)));
    Ok(())
}

fn set_places(alloc: Global, nodes: &mut Items<Node>, numbers: &[u32]) -> Result<(), NoMemory>
    ensures places { OnOk result (nodes.new ≡ with_places numbers.now nodes.old) }
    ensures size { OnOk result (length nodes.new ≡ length nodes.old) }
{
    for number in numbers {
        set_place(alloc, nodes, *number)?;
    }
    Ok(())
}

/// What an expression is as a target.
fn place(alloc: Global, expression: &Expression) -> Result<Option<Target>, NoMemory>
    ensures { IfOk result (λ t. t ≡ place_of expression.now) }
{
    match expression {
        Expression::Name(text) => Ok(Some(Target::Name(text.copy(alloc)?))),
        Expression::Builtin(builtin) => Ok(Some(Target::Name(Text::from_str(
            alloc,
            builtin.text(),
        )?))),
        Expression::Constant(Plain::NotImpl) => Ok(Some(Target::Name(Text::from_str(
            alloc,
            "NotImplemented",
        )?))),
        Expression::Attribute { receiver, name } => Ok(Some(Target::Attribute {
            receiver: *receiver,
            name: name.copy(alloc)?,
        })),
        &Expression::Item { receiver, key } => Ok(Some(Target::Item { receiver, key })),
        _ => Ok(None),
    }
}
