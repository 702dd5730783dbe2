ghost use Rattle.std.specs.Prelude.{◌≡◌, [], flat_map, slice_get};
ghost use Rattle.py_mentions.specs.Members.{Knows};
ghost use Rattle.py_mentions.specs.Rules.{asks_identity, is_at_top, is_name, is_text, broken_at, builtin_breaks, expression_breaks, fits_class, has_name, is_none, kind_breaks, link_breaks, maybe_name_breaks, may_be_bare, member_breaks, name_breaks, own_breaks, parameters_break, raise_breaks, read_breaks, repeat_breaks, unless};
ghost use Rattle.py_mentions.specs.Worst.{worst_with};

use crate::members::Members;
use crate::mentioning::line_of;
use crate::names::{is_exception, is_reserved, takes};
use crate::place::{Construct, Role};
use crate::surroundings::{class_at, may_break, may_raise, may_return};
use crate::worst::worse;
use py_ast::{Builtin, Comparison, Expression, Link, Name, Node, Program, Statement, Target};
use rp_base::{Plain, Refused, Rule};

/// The worst of `worst` and what the node of this number breaks.
#[tactic(auto, using(crate::specs::Worst::worst_more), unfolding(crate::specs::Rules::broken_at))]
pub fn worst_at<'a>(
    worst: Option<Refused>,
    program: &'a Program,
    members: &Members<'a>,
    constructs: &[Construct],
    role: Role,
    number: u32,
) -> Option<Refused>
    requires { Knows program.now members.now.set }
    ensures { result ≡ worst_with worst (broken_at program.now constructs.now role number) }
{
    let line = line_of(program, number);
    match program.nodes.get(number as usize) {
        Some(Node::Expression(expression)) => expression_breaks(
            worst, program, members, constructs, role, line, expression,
        ),
        Some(Node::Statement(statement)) => {
            let worst = own_breaks(worst, program, constructs, role, line, statement);
            member_breaks(worst, program, role, line, statement)
        }
        _ => worst,
    }
}

/// The rule is broken at this line unless it is kept.
fn unless(worst: Option<Refused>, is_kept: bool, line: u32, rule: Rule) -> Option<Refused>
    ensures { result ≡ worst_with worst (unless is_kept line rule) }
{
    if is_kept {
        return worst;
    }
    Some(worse(worst, Refused { line, rule }))
}

fn builtin_breaks(
    worst: Option<Refused>,
    builtin: Builtin,
    role: Role,
    line: u32,
) -> Option<Refused>
    ensures { result ≡ worst_with worst (builtin_breaks builtin role line) }
{
    match role {
        Role::Called(count) => unless(worst, takes(builtin, count), line, Rule::S3),
        _ => unless(worst, false, line, Rule::S2),
    }
}

fn name_breaks(worst: Option<Refused>, name: &Name) -> Option<Refused>
    ensures { result ≡ worst_with worst (name_breaks name.now) }
{
    unless(
        worst,
        !is_reserved(name.text.as_str().as_bytes()),
        name.line,
        Rule::S2,
    )
}

fn maybe_name_breaks(worst: Option<Refused>, name: &Option<Name>) -> Option<Refused>
    ensures { result ≡ worst_with worst (maybe_name_breaks name.now) }
{
    match name {
        Some(name) => name_breaks(worst, name),
        None => worst,
    }
}

#[tactic(auto, using(crate::specs::Worst::worst_more))]
fn names_break(worst: Option<Refused>, names: &[Name]) -> Option<Refused>
    ensures { result ≡ worst_with worst (flat_map name_breaks names.now) }
{
    let mut worst = worst;
    for name in names {
        worst = name_breaks(worst, name);
    }
    worst
}

/// The names in an `except`.
#[tactic(auto, using(crate::specs::Worst::worst_more))]
fn kinds_break(worst: Option<Refused>, names: &[Name]) -> Option<Refused>
    ensures { result ≡ worst_with worst (flat_map kind_breaks names.now) }
{
    let mut worst = worst;
    for name in names {
        let is_kind = is_exception(name.text.as_str().as_bytes());
        worst = unless(worst, is_kind, name.line, Rule::S2);
    }
    worst
}

fn is_none(program: &Program, number: u32) -> bool
    ensures { result ≡ is_none (slice_get program.now.nodes number) }
{
    match program.nodes.get(number as usize) {
        Some(Node::Expression(Expression::Constant(Plain::None))) => true,
        _ => false,
    }
}

fn asks_identity(comparison: Comparison) -> bool
    ensures { result ≡ asks_identity comparison }
{
    match comparison {
        Comparison::Is | Comparison::IsNot => true,
        _ => false,
    }
}

#[tactic(auto, using(crate::specs::Worst::worst_more))]
fn links_break(worst: Option<Refused>, program: &Program, links: &[Link]) -> Option<Refused>
    ensures { result ≡ worst_with worst (flat_map (link_breaks program.now) links.now) }
{
    let mut worst = worst;
    for link in links {
        let is_kept = !asks_identity(link.comparison) || is_none(program, link.right);
        worst = unless(worst, is_kept, link.line, Rule::S5);
    }
    worst
}

/// An expression of a class body reads no name that the body binds.
fn read_breaks<'a>(
    worst: Option<Refused>,
    program: &'a Program,
    members: &Members<'a>,
    constructs: &[Construct],
    line: u32,
    name: &'a str,
) -> Option<Refused>
    requires { Knows program.now members.now.set }
    ensures { result ≡ worst_with worst (read_breaks program.now constructs.now line name.now) }
{
    let is_bound = match class_at(constructs) {
        Some(suite) => members.has(suite, name),
        None => false,
    };
    unless(worst, !is_bound, line, Rule::S9)
}

fn is_name(program: &Program, number: u32) -> bool
    ensures { result ≡ is_name (slice_get program.now.nodes number) }
{
    match program.nodes.get(number as usize) {
        Some(Node::Target(Target::Name(_))) => true,
        _ => false,
    }
}

fn is_text(program: &Program, number: u32) -> bool
    ensures { result ≡ is_text (slice_get program.now.nodes number) }
{
    match program.nodes.get(number as usize) {
        Some(Node::Expression(Expression::Constant(Plain::Text(_)))) => true,
        _ => false,
    }
}

fn fits_class(program: &Program, statement: &Statement) -> bool
    ensures { result ≡ fits_class program.now statement.now }
{
    match statement {
        Statement::Def(_) | Statement::Pass => true,
        Statement::Assign { target, .. } => is_name(program, *target),
        Statement::Alone(expression) => is_text(program, *expression),
        _ => false,
    }
}

fn member_breaks(
    worst: Option<Refused>,
    program: &Program,
    role: Role,
    line: u32,
    statement: &Statement,
) -> Option<Refused>
    ensures { result ≡ worst_with worst (member_breaks program.now role line statement.now) }
{
    match role {
        Role::InClass => unless(worst, fits_class(program, statement), line, Rule::S9),
        _ => worst,
    }
}

fn has_name(name: &[u8], names: &[Name]) -> bool
    ensures { result ≡ has_name name.now names.now }
{
    for other in names {
        if name == other.text.as_str().as_bytes() {
            return true;
        }
    }
    false
}

#[tactic(auto, using(crate::specs::Worst::worst_more))]
fn repeats_break(worst: Option<Refused>, names: &[Name]) -> Option<Refused>
    ensures { result ≡ worst_with worst (repeat_breaks [] names.now) }
{
    let mut worst = worst;
    for i in 0..names.len() {
        let name = &names[i];
        let is_repeated = has_name(name.text.as_str().as_bytes(), &names[..i]);
        worst = unless(worst, !is_repeated, name.line, Rule::S12);
    }
    worst
}

fn parameters_break(worst: Option<Refused>, program: &Program, function: u32) -> Option<Refused>
    ensures { result ≡ worst_with worst (parameters_break (slice_get program.now.functions function)) }
{
    match program.functions.get(function as usize) {
        Some(info) => repeats_break(worst, info.parameters.as_slice()),
        None => worst,
    }
}

#[tactic(auto, using(crate::specs::Worst::worst_more))]
fn expression_breaks<'a>(
    worst: Option<Refused>,
    program: &'a Program,
    members: &Members<'a>,
    constructs: &[Construct],
    role: Role,
    line: u32,
    expression: &'a Expression,
) -> Option<Refused>
    requires { Knows program.now members.now.set }
    ensures { result ≡ worst_with worst (expression_breaks program.now constructs.now role line expression.now) }
{
    match expression {
        Expression::Name(name) => {
            let name = name.as_str();
            let worst = unless(worst, !is_reserved(name.as_bytes()), line, Rule::S2);
            read_breaks(worst, program, members, constructs, line, name)
        }
        Expression::Builtin(builtin) => {
            let worst = builtin_breaks(worst, *builtin, role, line);
            read_breaks(worst, program, members, constructs, line, builtin.text())
        }
        Expression::Compare { links, .. } => links_break(worst, program, links.as_slice()),
        Expression::Lambda(function) => parameters_break(worst, program, *function),
        _ => worst,
    }
}

fn raise_breaks(worst: Option<Refused>, name: &Name, arguments: &[u32]) -> Option<Refused>
    ensures { result ≡ worst_with worst (raise_breaks name.now arguments.now) }
{
    let is_kept = name.text.as_str() != "StopIteration" || arguments.is_empty();
    unless(worst, is_kept, name.line, Rule::S7)
}

fn may_be_bare(role: Role, kinds: &[Name]) -> bool
    ensures { result ≡ may_be_bare role kinds.now }
{
    match role {
        Role::EarlierHandler => !kinds.is_empty(),
        _ => true,
    }
}

fn is_at_top(role: Role) -> bool
    ensures { result ≡ is_at_top role }
{
    match role {
        Role::AtTop => true,
        _ => false,
    }
}

#[tactic(auto, using(crate::specs::Worst::worst_more))]
fn own_breaks(
    worst: Option<Refused>,
    program: &Program,
    constructs: &[Construct],
    role: Role,
    line: u32,
    statement: &Statement,
) -> Option<Refused>
    ensures { result ≡ worst_with worst (own_breaks program.now constructs.now role line statement.now) }
{
    match statement {
        Statement::Return(_) => unless(worst, may_return(constructs), line, Rule::S10),
        Statement::Break | Statement::Continue => unless(
            worst,
            may_break(constructs),
            line,
            Rule::S10,
        ),
        Statement::RaiseAgain => unless(worst, may_raise(constructs), line, Rule::S7),
        Statement::RaiseCall { name, arguments } => raise_breaks(worst, name, arguments.as_slice()),
        Statement::Global(names) | Statement::Nonlocal(names) => names_break(
            worst,
            names.as_slice(),
        ),
        Statement::Except { kinds, .. } => {
            let worst = unless(worst, may_be_bare(role, kinds.as_slice()), line, Rule::S7);
            kinds_break(worst, kinds.as_slice())
        }
        Statement::Def(function) => parameters_break(worst, program, *function),
        Statement::Class { base, .. } => {
            let worst = unless(worst, is_at_top(role), line, Rule::S8);
            maybe_name_breaks(worst, base)
        }
        _ => worst,
    }
}
