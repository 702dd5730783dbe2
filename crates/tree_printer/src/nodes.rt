use crate::statements::push_statement;
use crate::terms::{push_numbers, push_plain, push_text};
use py_ast::{Comparison, Expression, Link, Node, Target};
use std::alloc::AllocError;

fn push_list_node(out: &mut String, form: &str, numbers: &[u32]) -> Result<(), AllocError> {
    write!(out, "{form} ")?;
    push_numbers(out, numbers)
}

fn push_links(out: &mut String, links: &[Link]) -> Result<(), AllocError> {
    out.push_str("(")?;
    for link in links {
        out.push_str("record { comparison = ")?;
        match link.comparison {
            Comparison::Order(op) => write!(out, "comparison.Order cmp.{op:?}")?,
            other => write!(out, "comparison.{other:?}")?,
        }
        let (line, right) = (link.line, link.right);
        write!(out, "; line = {line}; right = {right} }} ∷ ")?;
    }
    out.push_str("[])")
}

fn push_expression(out: &mut String, expression: &Expression) -> Result<(), AllocError> {
    match expression {
        Expression::Name(text) => {
            out.push_str("Name ")?;
            push_text(out, text.as_str())
        }
        Expression::Builtin(builtin) => write!(out, "Builtin builtin.{builtin:?}"),
        Expression::Constant(value) => {
            out.push_str("Constant ")?;
            push_plain(out, value)
        }
        Expression::Tuple(items) => push_list_node(out, "Tuple", items.as_slice()),
        Expression::List(items) => push_list_node(out, "List", items.as_slice()),
        Expression::Dict(items) => push_list_node(out, "Dict", items.as_slice()),
        Expression::Lambda(function) => write!(out, "Lambda {function}"),
        Expression::Conditional {
            then,
            test,
            otherwise,
        } => write!(out, "Conditional {then} {test} {otherwise}"),
        Expression::Or(operands) => push_list_node(out, "Or", operands.as_slice()),
        Expression::And(operands) => push_list_node(out, "And", operands.as_slice()),
        Expression::Compare { first, links } => {
            write!(out, "Compare {first} ")?;
            push_links(out, links.as_slice())
        }
        Expression::Not(operand) => write!(out, "Not {operand}"),
        Expression::Unary { op, operand } => write!(out, "Unary unary.{op:?} {operand}"),
        Expression::Binary { op, left, right } => write!(out, "Binary op.{op:?} {left} {right}"),
        Expression::Attribute { receiver, name } => {
            write!(out, "Attribute {receiver} ")?;
            push_text(out, name.as_str())
        }
        Expression::Item { receiver, key } => write!(out, "Item {receiver} {key}"),
        Expression::Call { callee, arguments } => {
            write!(out, "Call {callee} ")?;
            push_numbers(out, arguments.as_slice())
        }
    }
}

fn push_target(out: &mut String, target: &Target) -> Result<(), AllocError> {
    match target {
        Target::Name(text) => {
            out.push_str("Name ")?;
            push_text(out, text.as_str())
        }
        Target::Attribute { receiver, name } => {
            write!(out, "Attribute {receiver} ")?;
            push_text(out, name.as_str())
        }
        Target::Item { receiver, key } => write!(out, "Item {receiver} {key}"),
        Target::Tuple(targets) => push_list_node(out, "Tuple", targets.as_slice()),
    }
}

/// A node.
pub fn push_node(out: &mut String, node: &Node) -> Result<(), AllocError> {
    match node {
        Node::Expression(expression) => {
            out.push_str("node.Expression (expression.")?;
            push_expression(out, expression)?;
        }
        Node::Target(target) => {
            out.push_str("node.Target (target.")?;
            push_target(out, target)?;
        }
        Node::Statement(statement) => {
            out.push_str("node.Statement (statement.")?;
            push_statement(out, statement)?;
        }
    }
    out.push_str(")")
}
