ghost use Rattle.std.specs.Prelude.{IfOk, List, ◌∷◌, [], reverse};
ghost use Rattle.eval_frames.specs.ClassFrames.{ends_class, through_class};
ghost use Rattle.eval_frames.specs.Meaning.{IsLight, Means, MeansOver, classed};
ghost use Rattle.language_rules.specs.Classes.{class_rule, on_members};
ghost use Rattle.language_rules.specs.States.{State};
ghost use Rattle.language_rules.specs.Texts.{on_suite};

use crate::attributes::add_member;
use crate::bases::base_class;
use crate::making::end_class;
use eval_frames::{ClassFrame, Frame, Next, node_at, waiting_numbers};
use object_operations::{Env, MadeClass};
use py_ast::{Name, Node, Program, Statement};
use py_store::{Binding, Store};
use rp_base::{Beyond, NoMemory, Text, Value};
use sqlite_items::Items;
use std::alloc::Global;

/// A class statement begins: its base is looked up, and the first statement of its body begins.
pub fn begin_class(
    alloc: Global,
    stack: &mut Vec<Frame>,
    store: &mut Store,
    texts: &[Program],
    classes: &mut Items<MadeClass>,
    env: Env,
    name: &str,
    base: &Option<Name>,
    body: u32,
) -> Result<Next, NoMemory>
    ensures means { IfOk result (λ next. (fixed : State) → MeansOver (classed fixed store.old.cells texts.now classes.old) (classed fixed store.new.cells texts.now classes.new) stack.new.items next (class_rule env name.now base.now body) stack.old.items) }
    ensures light { IfOk result (λ next. IsLight stack.new.items next stack.old.items) }
{
    match base_class(store, classes.as_slice(), env, base) {
        Some(base) => begin_body(alloc, stack, store, texts, classes, env, name, base, body),
        None => Ok(Next::Leave(Beyond::Base)),
    }
}

/// The body of a class statement with this base begins.
fn begin_body(
    alloc: Global,
    stack: &mut Vec<Frame>,
    store: &mut Store,
    texts: &[Program],
    classes: &mut Items<MadeClass>,
    env: Env,
    name: &str,
    base: Option<u32>,
    body: u32,
) -> Result<Next, NoMemory>
    ensures means { IfOk result (λ next. (fixed : State) → MeansOver (classed fixed store.old.cells texts.now classes.old) (classed fixed store.new.cells texts.now classes.new) stack.new.items next (on_suite env body (λ statements. on_members env statements [] (ends_class env name.now base))) stack.old.items) }
    ensures light { IfOk result (λ next. IsLight stack.new.items next stack.old.items) }
{
    let Some(Node::Statement(Statement::Suite(statements))) = node_at(texts, env, body) else {
        return Ok(Next::Leave(Beyond::NotYet));
    };
    let waiting = waiting_numbers(alloc, statements.as_slice())?;
    let name = Text::from_str(alloc, name)?;
    let attributes = Items::new(alloc);
    go_on(
        alloc, stack, store, texts, classes, env, name, base, attributes, waiting,
    )
}

/// A class body goes on with what one of its statements gave, or the class is made.
pub fn give_class(
    alloc: Global,
    stack: &mut Vec<Frame>,
    store: &mut Store,
    texts: &[Program],
    classes: &mut Items<MadeClass>,
    frame: ClassFrame,
    value: Value,
) -> Result<Next, NoMemory>
    ensures means { IfOk result (λ next. (fixed : State) → MeansOver (classed fixed store.old.cells texts.now classes.old) (classed fixed store.new.cells texts.now classes.new) stack.new.items next (through_class frame value) stack.old.items) }
    ensures light { IfOk result (λ next. IsLight stack.new.items next stack.old.items) }
{
    let ClassFrame {
        env,
        name,
        base,
        attributes,
        member,
        waiting,
    } = frame;
    match add_member(alloc, texts, env, member, attributes, value)? {
        Some(attributes) => go_on(
            alloc, stack, store, texts, classes, env, name, base, attributes, waiting,
        ),
        None => Ok(Next::Leave(Beyond::NotYet)),
    }
}

/// The statements of the body that wait, the next one at the end, behind these attributes.
fn go_on(
    alloc: Global,
    stack: &mut Vec<Frame>,
    store: &mut Store,
    texts: &[Program],
    classes: &mut Items<MadeClass>,
    env: Env,
    name: Text,
    base: Option<u32>,
    attributes: Items<Binding>,
    mut waiting: Items<u32>,
) -> Result<Next, NoMemory>
    ensures means { IfOk result (λ next. (fixed : State) → MeansOver (classed fixed store.old.cells texts.now classes.old) (classed fixed store.new.cells texts.now classes.new) stack.new.items next (on_members env (reverse waiting) attributes (ends_class env name base)) stack.old.items) }
    ensures light { IfOk result (λ next. IsLight stack.new.items next stack.old.items) }
{
    match waiting.pop() {
        None => end_class(alloc, store, texts, classes, env, name, base, attributes),
        Some(member) => enter_member(
            stack,
            ClassFrame {
                env,
                name,
                base,
                attributes,
                member,
                waiting,
            },
        ),
    }
}

/// A statement of a class body begins over what waits for its end.
fn enter_member(stack: &mut Vec<Frame>, frame: ClassFrame) -> Result<Next, NoMemory>
    ensures means { IfOk result (λ next. Means stack.new.items next (on_members frame.env (frame.member ∷ reverse frame.waiting) frame.attributes (ends_class frame.env frame.name frame.base)) stack.old.items) }
    ensures light { IfOk result (λ next. IsLight stack.new.items next stack.old.items) }
{
    let env = frame.env;
    let member = frame.member;
    stack.push(Frame::Class(frame))?;
    Ok(Next::Member(env, member))
}
