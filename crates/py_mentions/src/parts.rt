ghost use Rattle.std.specs.Prelude.{◌≡◌, ◌++◌, ◌∷◌, [], IfOk, length, map, slice_get};
ghost use Rattle.py_mentions.specs.Parts.{argument_role, body_of, compound_parts, expression_parts, flow_parts, handler_parts, maybe, part, part_in, parts, plain_parts, receiver_role, right_of, shows, statement_parts, statement_role, target_parts, target_role};

use crate::place::{Construct, Part, Role};
use py_ast::{Builtin, Expression, Link, Node, Program, Statement, Target};
use rp_base::{NoMemory, Text};

/// Puts the parts of the node of this number behind `found`, in written order.
#[tactic(auto, unfolding(crate::specs::Parts::parts))]
pub fn put_parts(
    found: &mut Vec<Part>,
    program: &Program,
    role: Role,
    number: u32,
) -> Result<(), NoMemory>
    ensures { IfOk result (λ _. found.new.items ≡ found.old.items ++ parts program.now role number) }
{
    match program.nodes.get(number as usize) {
        Some(Node::Expression(expression)) => expression_parts(found, program, expression),
        Some(Node::Target(target)) => target_parts(found, target),
        Some(Node::Statement(statement)) => statement_parts(
            found, program, role, number, statement,
        ),
        None => Ok(()),
    }
}

fn put(found: &mut Vec<Part>, role: Role, number: u32) -> Result<(), NoMemory>
    ensures { IfOk result (λ _. found.new.items ≡ found.old.items ++ part role number ∷ []) }
{
    found.push(Part {
        number,
        role,
        around: None,
    })?;
    Ok(())
}

fn put_in(
    found: &mut Vec<Part>,
    construct: Construct,
    role: Role,
    number: u32,
) -> Result<(), NoMemory>
    ensures { IfOk result (λ _. found.new.items ≡ found.old.items ++ part_in construct role number ∷ []) }
{
    found.push(Part {
        number,
        role,
        around: Some(construct),
    })?;
    Ok(())
}

/// Parts of one role.
fn put_all(found: &mut Vec<Part>, role: Role, numbers: &[u32]) -> Result<(), NoMemory>
    ensures { IfOk result (λ _. found.new.items ≡ found.old.items ++ map (part role) numbers.now) }
{
    for number in numbers {
        put(found, role, *number)?;
    }
    Ok(())
}

/// The body of a function, within it.
fn put_body(found: &mut Vec<Part>, program: &Program, function: u32) -> Result<(), NoMemory>
    ensures { IfOk result (λ _. found.new.items ≡ found.old.items ++ body_of function (slice_get program.now.functions function)) }
{
    match program.functions.get(function as usize) {
        Some(info) => put_in(found, Construct::Function(function), Role::Plain, info.body),
        None => Ok(()),
    }
}

/// The operands on the right of a chain's links.
fn put_rights(found: &mut Vec<Part>, links: &[Link]) -> Result<(), NoMemory>
    ensures { IfOk result (λ _. found.new.items ≡ found.old.items ++ plain_parts (map right_of links.now)) }
{
    for link in links {
        put(found, Role::Plain, link.right)?;
    }
    Ok(())
}

/// Whether a node is the name of `str` or `repr`.
fn shows(program: &Program, number: u32) -> bool
    ensures { result ≡ shows (slice_get program.now.nodes number) }
{
    match program.nodes.get(number as usize) {
        Some(Node::Expression(Expression::Builtin(Builtin::Str | Builtin::Repr))) => true,
        _ => false,
    }
}

fn argument_role(program: &Program, callee: u32, count: usize) -> Role
    ensures { result ≡ argument_role (slice_get program.now.nodes callee) count }
{
    if shows(program, callee) && count == 1 {
        Role::Shown
    } else {
        Role::Plain
    }
}

fn receiver_role(name: &Text) -> Role
    ensures { result ≡ receiver_role name.now }
{
    if name.as_str() == "args" {
        Role::ArgsOf
    } else {
        Role::Plain
    }
}

fn expression_parts(
    found: &mut Vec<Part>,
    program: &Program,
    expression: &Expression,
) -> Result<(), NoMemory>
    ensures { IfOk result (λ _. found.new.items ≡ found.old.items ++ expression_parts program.now expression.now) }
{
    match expression {
        Expression::Name(_) | Expression::Builtin(_) | Expression::Constant(_) => Ok(()),
        Expression::Tuple(items) | Expression::List(items) | Expression::Dict(items) => put_all(
            found,
            Role::Plain,
            items.as_slice(),
        ),
        Expression::Lambda(function) => put_body(found, program, *function),
        Expression::Conditional {
            then,
            test,
            otherwise,
        } => put_all(found, Role::Plain, &[*then, *test, *otherwise]),
        Expression::Or(items) | Expression::And(items) => put_all(
            found,
            Role::Plain,
            items.as_slice(),
        ),
        Expression::Compare { first, links } => {
            put(found, Role::Plain, *first)?;
            put_rights(found, links.as_slice())
        }
        Expression::Not(operand) | Expression::Unary { operand, .. } => put(
            found,
            Role::Plain,
            *operand,
        ),
        Expression::Binary { left, right, .. } => put_all(found, Role::Plain, &[*left, *right]),
        Expression::Attribute { receiver, name } => put(found, receiver_role(name), *receiver),
        Expression::Item { receiver, key } => put_all(found, Role::Plain, &[*receiver, *key]),
        Expression::Call { callee, arguments } => {
            let count = arguments.len();
            put(found, Role::Called(count), *callee)?;
            put_all(
                found,
                argument_role(program, *callee, count),
                arguments.as_slice(),
            )
        }
    }
}

fn target_parts(found: &mut Vec<Part>, target: &Target) -> Result<(), NoMemory>
    ensures { IfOk result (λ _. found.new.items ≡ found.old.items ++ target_parts target.now) }
{
    match target {
        Target::Name(_) => Ok(()),
        Target::Attribute { receiver, .. } => put(found, Role::Plain, *receiver),
        Target::Item { receiver, key } => put_all(found, Role::Plain, &[*receiver, *key]),
        Target::Tuple(items) => put_all(found, Role::Plain, items.as_slice()),
    }
}

/// The handlers of a `try`.
fn put_handlers(found: &mut Vec<Part>, handlers: &[u32]) -> Result<(), NoMemory>
    ensures { IfOk result (λ _. found.new.items ≡ found.old.items ++ handler_parts handlers.now) }
{
    for i in 0..handlers.len() {
        let role = if i + 1 < handlers.len() {
            Role::EarlierHandler
        } else {
            Role::Plain
        };
        put(found, role, handlers[i])?;
    }
    Ok(())
}

fn put_maybe(found: &mut Vec<Part>, number: Option<u32>) -> Result<(), NoMemory>
    ensures { IfOk result (λ _. found.new.items ≡ found.old.items ++ maybe (part Role.Plain) number) }
{
    match number {
        Some(number) => put(found, Role::Plain, number),
        None => Ok(()),
    }
}

fn put_finally(found: &mut Vec<Part>, number: Option<u32>) -> Result<(), NoMemory>
    ensures { IfOk result (λ _. found.new.items ≡ found.old.items ++ maybe (part_in Construct.Finally Role.Plain) number) }
{
    match number {
        Some(number) => put_in(found, Construct::Finally, Role::Plain, number),
        None => Ok(()),
    }
}

fn target_role(role: Role) -> Role
    ensures { result ≡ target_role role }
{
    match role {
        Role::InClass => Role::Member,
        _ => Role::Plain,
    }
}

fn statement_role(role: Role) -> Role
    ensures { result ≡ statement_role role }
{
    match role {
        Role::Whole => Role::AtTop,
        Role::ClassBody => Role::InClass,
        _ => Role::Plain,
    }
}

fn statement_parts(
    found: &mut Vec<Part>,
    program: &Program,
    role: Role,
    number: u32,
    statement: &Statement,
) -> Result<(), NoMemory>
    ensures { IfOk result (λ _. found.new.items ≡ found.old.items ++ statement_parts program.now role number statement.now) }
{
    match statement {
        Statement::Alone(part) | Statement::Delete(part) => put(found, Role::Plain, *part),
        Statement::Assign { target, value } => {
            put(found, target_role(role), *target)?;
            put(found, Role::Plain, *value)
        }
        Statement::Augmented { target, value, .. } => put_all(
            found,
            Role::Plain,
            &[*target, *value],
        ),
        Statement::Return(value) => put_maybe(found, *value),
        Statement::RaiseCall { arguments, .. } => put_all(found, Role::Plain, arguments.as_slice()),
        Statement::Suite(statements) => put_all(found, statement_role(role), statements.as_slice()),
        _ => compound_parts(found, program, number, statement),
    }
}

fn compound_parts(
    found: &mut Vec<Part>,
    program: &Program,
    number: u32,
    statement: &Statement,
) -> Result<(), NoMemory>
    ensures { IfOk result (λ _. found.new.items ≡ found.old.items ++ compound_parts program.now number statement.now) }
{
    match statement {
        Statement::Try {
            body,
            handlers,
            finally,
        } => {
            put(found, Role::Plain, *body)?;
            put_handlers(found, handlers.as_slice())?;
            put_finally(found, *finally)
        }
        Statement::Except { body, .. } => put_in(
            found,
            Construct::Handler(number),
            Role::Plain,
            *body,
        ),
        Statement::Def(function) => put_body(found, program, *function),
        Statement::Class { body, .. } => put_in(
            found,
            Construct::Class(*body),
            Role::ClassBody,
            *body,
        ),
        _ => flow_parts(found, statement),
    }
}

/// The parts of an `if`, a `while` or a `for`.
fn flow_parts(found: &mut Vec<Part>, statement: &Statement) -> Result<(), NoMemory>
    ensures { IfOk result (λ _. found.new.items ≡ found.old.items ++ flow_parts statement.now) }
{
    match statement {
        Statement::If {
            test,
            then,
            otherwise,
        } => {
            put_all(found, Role::Plain, &[*test, *then])?;
            put_maybe(found, *otherwise)
        }
        Statement::While { test, body } => {
            put(found, Role::Plain, *test)?;
            put_in(found, Construct::Loop, Role::Plain, *body)
        }
        Statement::For {
            target,
            source,
            body,
        } => {
            put_all(found, Role::Plain, &[*target, *source])?;
            put_in(found, Construct::Loop, Role::Plain, *body)
        }
        _ => Ok(()),
    }
}
