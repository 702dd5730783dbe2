ghost use Rattle.std.specs.Prelude.{◌≡◌, ◌++◌, ◌∷◌, [], IfOk, length, map, slice_get};
ghost use Rattle.py_mentions.specs.Mentions.{bound, class_mention, compound_mentions, def_mentions, defined, expression_mentions, guarded_use, lambda_mentions, line_of, maybe_mention, mention, mention_of, mentions_at, parameter_mentions, read, statement_mentions, target_mentions};

use crate::mention::{Form, Mention};
use crate::place::{Construct, Role};
use crate::surroundings::{class_at, function_at, is_caught};
use py_ast::{Expression, Name, Node, Program, Statement, Target};
use rp_base::{NoMemory, Text};
use sqlite_items::Items;
use std::alloc::Global;

/// The line of a node, 0 where it has none.
pub fn line_of(program: &Program, number: u32) -> u32
    ensures { result ≡ line_of program.now number }
{
    match program.lines.get(number as usize) {
        Some(line) => *line,
        None => 0,
    }
}

/// Puts what the node of this number mentions behind `mentions`.
#[tactic(auto, unfolding(crate::specs::Mentions::mentions_at))]
pub fn put_mentions(
    alloc: Global,
    mentions: &mut Items<Mention>,
    program: &Program,
    constructs: &[Construct],
    role: Role,
    number: u32,
) -> Result<(), NoMemory>
    ensures { IfOk result (λ _. mentions.new ≡ mentions.old ++ mentions_at program.now constructs.now role number) }
{
    let line = line_of(program, number);
    match program.nodes.get(number as usize) {
        Some(Node::Expression(expression)) => expression_mentions(
            alloc, mentions, program, constructs, role, line, expression,
        ),
        Some(Node::Target(target)) => target_mentions(
            alloc, mentions, constructs, role, line, target,
        ),
        Some(Node::Statement(statement)) => statement_mentions(
            alloc, mentions, program, constructs, role, line, statement,
        ),
        None => Ok(()),
    }
}

fn put(
    alloc: Global,
    mentions: &mut Items<Mention>,
    function: Option<u32>,
    form: Form,
    line: u32,
    name: &str,
) -> Result<(), NoMemory>
    ensures { IfOk result (λ _. mentions.new ≡ mentions.old ++ mention function form line name.now ∷ []) }
{
    put_of_class(alloc, mentions, function, None, form, line, name)
}

/// A mention that belongs to a class.
fn put_of_class(
    alloc: Global,
    mentions: &mut Items<Mention>,
    function: Option<u32>,
    class: Option<u32>,
    form: Form,
    line: u32,
    name: &str,
) -> Result<(), NoMemory>
    ensures { IfOk result (λ _. mentions.new ≡ mentions.old ++ class_mention function class form line name.now ∷ []) }
{
    mentions.push(Mention {
        name: Text::from_str(alloc, name)?,
        line,
        function,
        form,
        is_guarded: false,
        class,
    })?;
    Ok(())
}

/// A use that is guarded where a handler of its name stands around.
fn put_guarded(
    alloc: Global,
    mentions: &mut Items<Mention>,
    program: &Program,
    constructs: &[Construct],
    form: Form,
    line: u32,
    name: &str,
) -> Result<(), NoMemory>
    ensures { IfOk result (λ _. mentions.new ≡ mentions.old ++ guarded_use program.now constructs.now form line name.now ∷ []) }
{
    mentions.push(Mention {
        name: Text::from_str(alloc, name)?,
        line,
        function: function_at(constructs),
        form,
        is_guarded: is_caught(program, name.as_bytes(), constructs),
        class: None,
    })?;
    Ok(())
}

fn put_all(
    alloc: Global,
    mentions: &mut Items<Mention>,
    function: Option<u32>,
    form: Form,
    names: &[Name],
) -> Result<(), NoMemory>
    ensures { IfOk result (λ _. mentions.new ≡ mentions.old ++ map (mention_of function form) names.now) }
{
    for name in names {
        put(
            alloc,
            mentions,
            function,
            form,
            name.line,
            name.text.as_str(),
        )?;
    }
    Ok(())
}

fn put_maybe(
    alloc: Global,
    mentions: &mut Items<Mention>,
    function: Option<u32>,
    class: Option<u32>,
    form: Form,
    name: &Option<Name>,
) -> Result<(), NoMemory>
    ensures { IfOk result (λ _. mentions.new ≡ mentions.old ++ maybe_mention function class form name.now) }
{
    match name {
        Some(name) => put_of_class(
            alloc,
            mentions,
            function,
            class,
            form,
            name.line,
            name.text.as_str(),
        ),
        None => Ok(()),
    }
}

fn read(
    alloc: Global,
    mentions: &mut Items<Mention>,
    program: &Program,
    constructs: &[Construct],
    role: Role,
    line: u32,
    name: &str,
) -> Result<(), NoMemory>
    ensures { IfOk result (λ _. mentions.new ≡ mentions.old ++ read program.now constructs.now role line name.now ∷ []) }
{
    match role {
        Role::Shown | Role::ArgsOf => put_guarded(
            alloc,
            mentions,
            program,
            constructs,
            Form::Read,
            line,
            name,
        ),
        _ => put(
            alloc,
            mentions,
            function_at(constructs),
            Form::Read,
            line,
            name,
        ),
    }
}

fn lambda_mentions(
    alloc: Global,
    mentions: &mut Items<Mention>,
    program: &Program,
    function: u32,
) -> Result<(), NoMemory>
    ensures { IfOk result (λ _. mentions.new ≡ mentions.old ++ lambda_mentions function (slice_get program.now.functions function)) }
{
    match program.functions.get(function as usize) {
        Some(info) => put_all(
            alloc,
            mentions,
            Some(function),
            Form::Parameter,
            info.parameters.as_slice(),
        ),
        None => Ok(()),
    }
}

fn expression_mentions(
    alloc: Global,
    mentions: &mut Items<Mention>,
    program: &Program,
    constructs: &[Construct],
    role: Role,
    line: u32,
    expression: &Expression,
) -> Result<(), NoMemory>
    ensures { IfOk result (λ _. mentions.new ≡ mentions.old ++ expression_mentions program.now constructs.now role line expression.now) }
{
    match expression {
        Expression::Name(name) => read(
            alloc,
            mentions,
            program,
            constructs,
            role,
            line,
            name.as_str(),
        ),
        Expression::Builtin(builtin) => put(
            alloc,
            mentions,
            function_at(constructs),
            Form::Read,
            line,
            builtin.text(),
        ),
        Expression::Attribute { name, .. } => put(
            alloc,
            mentions,
            function_at(constructs),
            Form::Attribute,
            line,
            name.as_str(),
        ),
        Expression::Lambda(function) => lambda_mentions(alloc, mentions, program, *function),
        _ => Ok(()),
    }
}

/// A name that is bound, by a class body or otherwise.
fn bound(
    alloc: Global,
    mentions: &mut Items<Mention>,
    constructs: &[Construct],
    role: Role,
    line: u32,
    name: &str,
) -> Result<(), NoMemory>
    ensures { IfOk result (λ _. mentions.new ≡ mentions.old ++ bound constructs.now role line name.now ∷ []) }
{
    let function = function_at(constructs);
    match role {
        Role::Member => put_of_class(
            alloc,
            mentions,
            function,
            class_at(constructs),
            Form::Member,
            line,
            name,
        ),
        _ => put(alloc, mentions, function, Form::Target, line, name),
    }
}

fn target_mentions(
    alloc: Global,
    mentions: &mut Items<Mention>,
    constructs: &[Construct],
    role: Role,
    line: u32,
    target: &Target,
) -> Result<(), NoMemory>
    ensures { IfOk result (λ _. mentions.new ≡ mentions.old ++ target_mentions constructs.now role line target.now) }
{
    match target {
        Target::Name(name) => bound(alloc, mentions, constructs, role, line, name.as_str()),
        Target::Attribute { name, .. } => put(
            alloc,
            mentions,
            function_at(constructs),
            Form::Attribute,
            line,
            name.as_str(),
        ),
        _ => Ok(()),
    }
}

/// The name of a `def`, of a method with so many parameters or not.
fn defined(
    alloc: Global,
    mentions: &mut Items<Mention>,
    constructs: &[Construct],
    role: Role,
    count: usize,
    line: u32,
    name: &str,
) -> Result<(), NoMemory>
    ensures { IfOk result (λ _. mentions.new ≡ mentions.old ++ defined constructs.now role count line name.now ∷ []) }
{
    let function = function_at(constructs);
    match role {
        Role::InClass => put_of_class(
            alloc,
            mentions,
            function,
            class_at(constructs),
            Form::Method(count),
            line,
            name,
        ),
        _ => put(alloc, mentions, function, Form::Function, line, name),
    }
}

fn def_mentions(
    alloc: Global,
    mentions: &mut Items<Mention>,
    program: &Program,
    constructs: &[Construct],
    role: Role,
    line: u32,
    function: u32,
) -> Result<(), NoMemory>
    ensures { IfOk result (λ _. mentions.new ≡ mentions.old ++ def_mentions constructs.now role line function (slice_get program.now.functions function)) }
{
    match program.functions.get(function as usize) {
        Some(info) => {
            let count = info.parameters.len();
            defined(
                alloc,
                mentions,
                constructs,
                role,
                count,
                line,
                info.name.as_str(),
            )?;
            put_all(
                alloc,
                mentions,
                Some(function),
                Form::Parameter,
                info.parameters.as_slice(),
            )
        }
        None => Ok(()),
    }
}

fn statement_mentions(
    alloc: Global,
    mentions: &mut Items<Mention>,
    program: &Program,
    constructs: &[Construct],
    role: Role,
    line: u32,
    statement: &Statement,
) -> Result<(), NoMemory>
    ensures { IfOk result (λ _. mentions.new ≡ mentions.old ++ statement_mentions program.now constructs.now role line statement.now) }
{
    let function = function_at(constructs);
    match statement {
        Statement::RaiseName(name) => {
            let text = name.text.as_str();
            put_guarded(
                alloc,
                mentions,
                program,
                constructs,
                Form::Raised,
                name.line,
                text,
            )
        }
        Statement::RaiseCall { name, .. } => {
            let text = name.text.as_str();
            put(alloc, mentions, function, Form::Raised, name.line, text)
        }
        Statement::Global(names) => put_all(
            alloc,
            mentions,
            function,
            Form::Global,
            names.as_slice(),
        ),
        Statement::Nonlocal(names) => put_all(
            alloc,
            mentions,
            function,
            Form::Nonlocal,
            names.as_slice(),
        ),
        Statement::Def(def) => def_mentions(alloc, mentions, program, constructs, role, line, *def),
        _ => compound_mentions(alloc, mentions, function, statement),
    }
}

/// What a handler or a class mentions, in this function.
fn compound_mentions(
    alloc: Global,
    mentions: &mut Items<Mention>,
    function: Option<u32>,
    statement: &Statement,
) -> Result<(), NoMemory>
    ensures { IfOk result (λ _. mentions.new ≡ mentions.old ++ compound_mentions function statement.now) }
{
    match statement {
        Statement::Except { kinds, name, .. } => {
            put_all(alloc, mentions, function, Form::Exception, kinds.as_slice())?;
            put_maybe(alloc, mentions, function, None, Form::Caught, name)
        }
        Statement::Class { name, base, body } => {
            let class = Some(*body);
            let text = name.text.as_str();
            put_of_class(
                alloc,
                mentions,
                function,
                class,
                Form::Class,
                name.line,
                text,
            )?;
            put_maybe(alloc, mentions, function, class, Form::Base, base)
        }
        _ => Ok(()),
    }
}
