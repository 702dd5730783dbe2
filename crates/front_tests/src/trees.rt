use py_ast::{Comparison, Expression, FunctionInfo, Link, Name, Node, Program, Statement, Target};
use rp_base::{CmpOp, Plain, Text};
use sqlite_items::Items;
use std::alloc::Global;
use std::test::Fail;

fn name(alloc: Global, text: &str, line: u32) -> Result<Name, Fail> {
    Ok(Name {
        text: Text::from_str(alloc, text)?,
        line,
    })
}

/// `f = lambda x: 1 < x`
fn program(alloc: Global) -> Result<Program, Fail> {
    let mut links = Items::new(alloc);
    links.push(Link {
        comparison: Comparison::Order(CmpOp::Lt),
        line: 1,
        right: 1,
    })?;
    let mut nodes = Items::new(alloc);
    nodes.push(Node::Expression(Expression::Constant(Plain::Int(1))))?;
    nodes.push(Node::Expression(Expression::Name(Text::from_str(alloc, "x")?)))?;
    nodes.push(Node::Expression(Expression::Compare { first: 0, links }))?;
    nodes.push(Node::Expression(Expression::Lambda(0)))?;
    nodes.push(Node::Target(Target::Name(Text::from_str(alloc, "f")?)))?;
    nodes.push(Node::Statement(Statement::Assign {
        target: 4,
        value: 3,
    }))?;
    nodes.push(Node::Statement(Statement::Suite(Items::from_slice(alloc, &[5])?)))?;
    let mut parameters = Items::new(alloc);
    parameters.push(name(alloc, "x", 1)?)?;
    let mut locals = Items::new(alloc);
    locals.push(Text::from_str(alloc, "x")?)?;
    let mut functions = Items::new(alloc);
    functions.push(FunctionInfo {
        name: Text::from_str(alloc, "<lambda>")?,
        parameters,
        locals,
        free: Items::new(alloc),
        has_inner: false,
        parent: None,
        body: 2,
    })?;
    Ok(Program {
        nodes,
        lines: Items::from_slice(alloc, &[1, 1, 1, 1, 1, 1, 1])?,
        root: 6,
        functions,
        handler_names: Items::new(alloc),
        is_expression: false,
    })
}

#[test]
fn copies(rt: HostRuntime) -> Result<(), Fail> {
    let copy = program(rt.alloc())?.copy(rt.alloc())?;
    assert_eq!(rt; (copy.nodes.len(), copy.lines.len(), copy.root), (7, 7, 6));
    assert!(rt;
        matches!(
            copy.node(0),
            Node::Expression(Expression::Constant(Plain::Int(1)))
        )
    );
    assert!(rt;
        matches!(
            copy.node(2),
            Node::Expression(Expression::Compare { first: 0, .. })
        )
    );
    assert!(rt;
        matches!(
            copy.node(5),
            Node::Statement(Statement::Assign {
                target: 4,
                value: 3
            })
        )
    );
    let parameter = copy
        .functions
        .get(0)
        .and_then(|f| f.parameters.get(0))
        .map(|p| p.text.as_str());
    assert_eq!(rt; parameter, Some("x"));
    Ok(())
}
