use crate::terms::{push_name, push_name_or_none, push_names, push_number_or_none, push_numbers};
use py_ast::Statement;
use std::alloc::AllocError;

/// A statement, a handler or a suite.
pub fn push_statement(out: &mut String, statement: &Statement) -> Result<(), AllocError> {
    match statement {
        Statement::Alone(value) => write!(out, "Alone {value}"),
        Statement::Assign { target, value } => write!(out, "Assign {target} {value}"),
        Statement::Augmented { target, op, value } => {
            write!(out, "Augmented {target} op.{op:?} {value}")
        }
        Statement::Pass => out.push_str("Pass"),
        Statement::Break => out.push_str("Break"),
        Statement::Continue => out.push_str("Continue"),
        Statement::Return(value) => {
            out.push_str("Return ")?;
            push_number_or_none(out, *value)
        }
        Statement::RaiseAgain => out.push_str("RaiseAgain"),
        Statement::RaiseName(name) => {
            out.push_str("RaiseName ")?;
            push_name(out, name)
        }
        Statement::RaiseCall { name, arguments } => {
            out.push_str("RaiseCall ")?;
            push_name(out, name)?;
            out.push_str(" ")?;
            push_numbers(out, arguments.as_slice())
        }
        Statement::Global(names) => {
            out.push_str("Global ")?;
            push_names(out, names.as_slice())
        }
        Statement::Nonlocal(names) => {
            out.push_str("Nonlocal ")?;
            push_names(out, names.as_slice())
        }
        Statement::Delete(target) => write!(out, "Delete {target}"),
        Statement::While { test, body } => write!(out, "While {test} {body}"),
        Statement::For {
            target,
            source,
            body,
        } => write!(out, "For {target} {source} {body}"),
        Statement::Def(function) => write!(out, "Def {function}"),
        Statement::Suite(statements) => {
            out.push_str("Suite ")?;
            push_numbers(out, statements.as_slice())
        }
        other => push_compound(out, other),
    }
}

/// A statement with a part that it may lack.
fn push_compound(out: &mut String, statement: &Statement) -> Result<(), AllocError> {
    match statement {
        Statement::If {
            test,
            then,
            otherwise,
        } => {
            write!(out, "If {test} {then} ")?;
            push_number_or_none(out, *otherwise)
        }
        Statement::Try {
            body,
            handlers,
            finally,
        } => {
            write!(out, "Try {body} ")?;
            push_numbers(out, handlers.as_slice())?;
            out.push_str(" ")?;
            push_number_or_none(out, *finally)
        }
        Statement::Except { kinds, name, body } => {
            out.push_str("Except ")?;
            push_names(out, kinds.as_slice())?;
            out.push_str(" ")?;
            push_name_or_none(out, name)?;
            write!(out, " {body}")
        }
        Statement::Class { name, base, body } => {
            out.push_str("Class ")?;
            push_name(out, name)?;
            out.push_str(" ")?;
            push_name_or_none(out, base)?;
            write!(out, " {body}")
        }
        _ => Ok(()),
    }
}
