use py_ast::{Builtin, Expression, FunctionInfo, Name, Node, Program, Statement};
use py_mentions::{Form, Mention, places};
use rp_base::{NoMemory, Refused, Rule, Text};
use sqlite_items::Items;
use std::alloc::Global;
use std::test::Fail;

fn suite(alloc: Global, statements: &[u32]) -> Result<Node, NoMemory> {
    let statements = Items::from_slice(alloc, statements)?;
    Ok(Node::Statement(Statement::Suite(statements)))
}

/// str(e)
fn call(alloc: Global, nodes: &mut Items<Node>) -> Result<(), NoMemory> {
    let name = Text::from_str(alloc, "e")?;
    let arguments = Items::from_slice(alloc, &[1])?;
    nodes.push(Node::Expression(Expression::Builtin(Builtin::Str)))?;
    nodes.push(Node::Expression(Expression::Name(name)))?;
    nodes.push(Node::Expression(Expression::Call {
        callee: 0,
        arguments,
    }))?;
    Ok(())
}

fn function(alloc: Global) -> Result<FunctionInfo, NoMemory> {
    let mut parameters = Items::new(alloc);
    let text = Text::from_str(alloc, "e")?;
    parameters.push(Name { text, line: 1 })?;
    Ok(FunctionInfo {
        name: Text::from_str(alloc, "f")?,
        parameters,
        locals: Items::new(alloc),
        free: Items::new(alloc),
        has_inner: false,
        parent: None,
        body: 5,
    })
}

/// def f(e):
///     str(e)
///     break
fn script(alloc: Global) -> Result<Program, NoMemory> {
    let mut nodes = Items::new(alloc);
    call(alloc, &mut nodes)?;
    nodes.push(Node::Statement(Statement::Alone(2)))?;
    nodes.push(Node::Statement(Statement::Break))?;
    nodes.push(suite(alloc, &[3, 4])?)?;
    nodes.push(Node::Statement(Statement::Def(0)))?;
    nodes.push(suite(alloc, &[6])?)?;
    let mut functions = Items::new(alloc);
    functions.push(function(alloc)?)?;
    Ok(Program {
        nodes,
        lines: Items::from_slice(alloc, &[2, 2, 2, 2, 3, 2, 1, 1])?,
        root: 7,
        functions,
        handler_names: Items::new(alloc),
        is_expression: false,
    })
}

fn is_it(mention: &Mention, name: &str, line: u32, function: Option<u32>, form: Form) -> bool {
    mention.name.as_str() == name
        && mention.line == line
        && mention.function == function
        && mention.form == form
        && !mention.is_guarded
}

#[test]
fn a_function(rt: HostRuntime) -> Result<(), Fail> {
    let program = script(rt.alloc())?;
    let found = places(rt.alloc(), &program)?;
    let are_they = match found.mentions.as_slice() {
        [f, parameter, str, e] => {
            is_it(f, "f", 1, None, Form::Function)
                && is_it(parameter, "e", 1, Some(0), Form::Parameter)
                && is_it(str, "str", 2, Some(0), Form::Read)
                && is_it(e, "e", 2, Some(0), Form::Read)
        }
        _ => false,
    };
    assert!(rt; are_they);
    assert!(rt;
        found.worst
            == Some(Refused {
                line: 3,
                rule: Rule::S10
            })
    );
    Ok(())
}
