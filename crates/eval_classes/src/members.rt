ghost use Rattle.std.specs.Prelude.{IfOk, List};
ghost use Rattle.py_store.specs.declared.cell.Cell.{Cell};
ghost use Rattle.eval_frames.specs.Meaning.{IsLight, Means, MeansIn};
ghost use Rattle.language_rules.specs.AtOnce.{stated};
ghost use Rattle.language_rules.specs.Classes.{member_rule};
ghost use Rattle.language_rules.specs.Nodes.{member_node_rule};
ghost use Rattle.language_rules.specs.States.{State};

use eval_frames::{Frame, Next, StatementFrame, enter_over, node_at};
use object_operations::{Completion, Env};
use py_ast::{Node, Program, Statement};
use py_store::Cell;
use rp_base::{Beyond, NoMemory, Plain, Value};

/// A statement of a class body begins, behind its unit.
pub fn begin_member(
    stack: &mut Vec<Frame>,
    texts: &[Program],
    env: Env,
    number: u32,
) -> Result<Next, NoMemory>
    ensures means { IfOk result (λ next. (fixed : State) (cells : List Cell) → MeansIn (stated fixed cells texts.now) stack.new.items next (member_node_rule env number) stack.old.items) }
    ensures light { IfOk result (λ next. IsLight stack.new.items next stack.old.items) }
{
    match node_at(texts, env, number) {
        Some(Node::Statement(statement)) => begin_at(stack, env, statement),
        _ => Ok(Next::Leave(Beyond::NotYet)),
    }
}

/// The same, at this statement. A method's function is made in the scope of the class statement, and the end of an
/// attribute's value is the statement's end.
fn begin_at(stack: &mut Vec<Frame>, env: Env, statement: &Statement) -> Result<Next, NoMemory>
    ensures means { IfOk result (λ next. Means stack.new.items next (member_rule env statement.now) stack.old.items) }
    ensures light { IfOk result (λ next. IsLight stack.new.items next stack.old.items) }
{
    match *statement {
        Statement::Def(function) => Ok(Next::Make(Cell::Function {
            text: env.text,
            function,
            scope: env.scope,
        })),
        Statement::Assign { value, .. } => Ok(Next::Enter(env, value)),
        Statement::Alone(number) => enter_over(
            stack,
            Frame::Statement(StatementFrame::Alone),
            env,
            number,
        ),
        Statement::Pass => Ok(Next::Give(Completion::Gives(Value::Plain(Plain::None)))),
        _ => Ok(Next::Leave(Beyond::NotYet)),
    }
}
