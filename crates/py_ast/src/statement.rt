ghost use Rattle.std.specs.Prelude.{◌≡◌, IfOk};

use crate::copying::{copy_names, copy_numbers, copy_option};
use crate::name::Name;
use rp_base::{BinaryOp, NoMemory};
use sqlite_items::Items;
use std::alloc::Global;

/// A statement, a suite or a handler, with its parts as numbers of nodes in written order (Python Language Reference,
/// "Simple statements" and "Compound statements").
#[derive(Drop)]
pub enum Statement {
    /// An expression by itself.
    Alone(u32),
    Assign {
        target: u32,
        value: u32,
    },
    /// `+=` and its kin.
    Augmented {
        target: u32,
        op: BinaryOp,
        value: u32,
    },
    Pass,
    Break,
    Continue,
    Return(Option<u32>),
    /// A bare `raise`.
    RaiseAgain,
    /// `raise` of a name without parentheses.
    RaiseName(Name),
    /// `raise` of a name with arguments, maybe none.
    RaiseCall {
        name: Name,
        arguments: Items<u32>,
    },
    Global(Items<Name>),
    Nonlocal(Items<Name>),
    /// `del` of an attribute or an item: the number of a target.
    Delete(u32),
    /// `otherwise` is a suite, or the `if` that an `elif` is.
    If {
        test: u32,
        then: u32,
        otherwise: Option<u32>,
    },
    While {
        test: u32,
        body: u32,
    },
    For {
        target: u32,
        source: u32,
        body: u32,
    },
    Try {
        body: u32,
        handlers: Items<u32>,
        finally: Option<u32>,
    },
    /// A handler of a `try`: it takes all exceptions where no kind is named. It is no statement of its own.
    Except {
        kinds: Items<Name>,
        name: Option<Name>,
        body: u32,
    },
    /// The number of its function.
    Def(u32),
    Class {
        name: Name,
        base: Option<Name>,
        body: u32,
    },
    /// The statements of a text or of a suite. It is no statement of its own.
    Suite(Items<u32>),
}

impl Statement {
    /// An equal statement of its own.
    pub fn copy(&self, alloc: Global) -> Result<Statement, NoMemory>
        ensures { IfOk result (λ s. s ≡ self.now) }
    {
        match self {
            &Statement::Alone(value) => Ok(Statement::Alone(value)),
            &Statement::Assign { target, value } => Ok(Statement::Assign { target, value }),
            &Statement::Augmented { target, op, value } => Ok(Statement::Augmented {
                target,
                op,
                value,
            }),
            Statement::Pass => Ok(Statement::Pass),
            Statement::Break => Ok(Statement::Break),
            Statement::Continue => Ok(Statement::Continue),
            &Statement::Return(value) => Ok(Statement::Return(value)),
            Statement::RaiseAgain => Ok(Statement::RaiseAgain),
            Statement::RaiseName(name) => Ok(Statement::RaiseName(name.copy(alloc)?)),
            Statement::RaiseCall { name, arguments } => Ok(Statement::RaiseCall {
                name: name.copy(alloc)?,
                arguments: copy_numbers(arguments, alloc)?,
            }),
            Statement::Global(names) => Ok(Statement::Global(copy_names(names, alloc)?)),
            Statement::Nonlocal(names) => Ok(Statement::Nonlocal(copy_names(names, alloc)?)),
            &Statement::Delete(target) => Ok(Statement::Delete(target)),
            &Statement::If {
                test,
                then,
                otherwise,
            } => Ok(Statement::If {
                test,
                then,
                otherwise,
            }),
            &Statement::While { test, body } => Ok(Statement::While { test, body }),
            &Statement::For {
                target,
                source,
                body,
            } => Ok(Statement::For {
                target,
                source,
                body,
            }),
            Statement::Try {
                body,
                handlers,
                finally,
            } => Ok(Statement::Try {
                body: *body,
                handlers: copy_numbers(handlers, alloc)?,
                finally: *finally,
            }),
            Statement::Except { kinds, name, body } => Ok(Statement::Except {
                kinds: copy_names(kinds, alloc)?,
                name: copy_option(name, alloc)?,
                body: *body,
            }),
            &Statement::Def(function) => Ok(Statement::Def(function)),
            Statement::Class { name, base, body } => Ok(Statement::Class {
                name: name.copy(alloc)?,
                base: copy_option(base, alloc)?,
                body: *body,
            }),
            Statement::Suite(statements) => Ok(Statement::Suite(copy_numbers(statements, alloc)?)),
        }
    }
}
