use py_ast::{Comparison, Expression, Node, Program, Statement, Target};
use py_lexer::tokens;
use py_parser::{parse, parse_expr};
use rp_base::{CmpOp, Plain, UnaryOp};
use std::test::Fail;

fn expression(program: &Program, number: usize) -> Option<&Expression> {
    match program.nodes.get(number) {
        Some(Node::Expression(expression)) => Some(expression),
        _ => None,
    }
}

fn target(program: &Program, number: usize) -> Option<&Target> {
    match program.nodes.get(number) {
        Some(Node::Target(target)) => Some(target),
        _ => None,
    }
}

fn statement(program: &Program, number: usize) -> Option<&Statement> {
    match program.nodes.get(number) {
        Some(Node::Statement(statement)) => Some(statement),
        _ => None,
    }
}

#[test]
fn a_chain_is_one_node(rt: HostRuntime) -> Result<(), Fail> {
    let text = "(a < b\nis not\nc)";
    let tokens = tokens(rt.alloc(), text)?;
    let program = parse_expr(rt.alloc(), tokens.as_slice(), text)?;
    assert_eq!(rt; program.root, 3);
    assert_eq!(rt; program.lines.as_slice(), [1, 1, 3, 1].as_slice());
    let Some(Expression::Compare { first: 0, links }) = expression(&program, 3) else {
        return Err(Fail::new("no chain"));
    };
    let [less, is_not] = links.as_slice() else {
        return Err(Fail::new("no two links"));
    };
    assert!(rt; less.comparison == Comparison::Order(CmpOp::Lt) && less.right == 1);
    assert!(rt; is_not.comparison == Comparison::IsNot && is_not.line == 2 && is_not.right == 2);
    Ok(())
}

#[test]
fn a_function_that_assigns(rt: HostRuntime) -> Result<(), Fail> {
    let text = "def f(x):\n  x.y, len = g(-1)\n";
    let tokens = tokens(rt.alloc(), text)?;
    let program = parse(rt.alloc(), tokens.as_slice(), text)?;
    assert!(rt; matches!(expression(&program, 0), Some(Expression::Name(_))));
    assert!(rt;
        matches!(
            target(&program, 1),
            Some(Target::Attribute { receiver: 0, .. })
        )
    );
    assert!(rt; matches!(target(&program, 2), Some(Target::Name(name)) if name.as_str() == "len"));
    assert!(rt;
        matches!(target(&program, 3), Some(Target::Tuple(parts)) if parts.as_slice() == [1, 2].as_slice())
    );
    assert!(rt;
        matches!(
            expression(&program, 5),
            Some(Expression::Constant(Plain::Int(1)))
        )
    );
    assert!(rt;
        matches!(
            expression(&program, 6),
            Some(Expression::Unary {
                op: UnaryOp::Neg,
                operand: 5
            })
        )
    );
    assert!(rt;
        matches!(expression(&program, 7), Some(Expression::Call { callee: 4, arguments }) if arguments.as_slice() == [6].as_slice())
    );
    assert!(rt;
        matches!(
            statement(&program, 8),
            Some(Statement::Assign {
                target: 3,
                value: 7
            })
        )
    );
    assert!(rt; matches!(statement(&program, 10), Some(Statement::Def(0))));
    assert!(rt;
        matches!(statement(&program, 11), Some(Statement::Suite(parts)) if parts.as_slice() == [10].as_slice())
    );
    assert!(rt;
        matches!(program.functions.get(0), Some(info) if info.body == 9 && info.parent.is_none() && info.name.as_str() == "f")
    );
    Ok(())
}
