ghost use Rattle.std.specs.Prelude.{◌≡◌, ◌∷◌, ℕ, IfOk, List, length};
ghost use Rattle.rp_base.specs.declared.value.Value.{Value};
ghost use Rattle.object_operations.specs.declared.operation.Operation.TheVariants as operation;
ghost use Rattle.eval_frames.specs.declared.frame.Frame.{Frame};
ghost use Rattle.eval_frames.specs.Meaning.{IsLight, Means, MeansOver};
ghost use Rattle.language_rules.specs.Answers.{asked};
ghost use Rattle.language_rules.specs.AtOnce.{stated};
ghost use Rattle.language_rules.specs.Calls.{call_value, calls_bound, calls_cell};
ghost use Rattle.language_rules.specs.Functions.{calls_function, runs_function};
ghost use Rattle.language_rules.specs.Going.{reads_cell};
ghost use Rattle.language_rules.specs.States.{State};
ghost use Rattle.eval_calls.specs.Closures.{calls_callee};
ghost use Rattle.eval_calls.specs.Waiting.{begins_call};

use crate::bodies::begin_body;
use crate::exceptions::refuse;
use crate::making::make_cell;
use crate::scopes::bind_parameters;
use eval_frames::{Frame, Next, operate};
use eval_instances::make_instance;
use eval_methods::call_method;
use eval_names::function_at;
use object_operations::{BuiltinMethod, Env, Operation};
use py_ast::{FunctionInfo, Program};
use py_store::{Cell, Method, Store};
use rp_base::{Beyond, NoMemory, Value};
use sqlite_items::Items;
use std::alloc::Global;

/// The function of this number in this text, made in this scope.
#[derive(Clone, Copy, Debug, PartialEq, Eq)]
struct Closure {
    text: u32,
    function: u32,
    scope: u32,
}

/// What a cell is when it is called.
#[derive(Drop)]
enum Callee {
    Function(Closure),
    /// A bound function, which is called with the receiver first.
    Method {
        receiver: Value,
        function: Value,
    },
    /// A method of a builtin kind.
    Builtin {
        receiver: Value,
        method: BuiltinMethod,
    },
    Class,
    /// It can't be called.
    Other,
}

/// `callee(arguments)`, behind its unit (Python Language Reference, "Calls"). A value that can't be called is a
/// `TypeError`. Calls of functions of modules are not built yet: they come with the pair.
pub fn call(
    alloc: Global,
    stack: &mut Vec<Frame>,
    store: &mut Store,
    texts: &[Program],
    callee: &Value,
    arguments: Items<Value>,
) -> Result<Next, NoMemory>
    ensures means { IfOk result (λ next. (fixed : State) → MeansOver (stated fixed store.old.cells texts.now) (stated fixed store.new.cells texts.now) stack.new.items next (call_value callee.now arguments) stack.old.items) }
    ensures light { IfOk result (λ next. IsLight stack.new.items next stack.old.items) }
{
    match callee {
        Value::Own(number) => call_cell(alloc, stack, store, texts, *number, arguments),
        Value::Plain(_) => refuse(alloc, "not callable"),
        Value::Tuple(_) => refuse(alloc, "not callable"),
        Value::Proxy(_) => refuse(alloc, "not callable"),
    }
}

/// The cell of this number is called.
fn call_cell(
    alloc: Global,
    stack: &mut Vec<Frame>,
    store: &mut Store,
    texts: &[Program],
    number: u32,
    arguments: Items<Value>,
) -> Result<Next, NoMemory>
    ensures means { IfOk result (λ next. (fixed : State) → MeansOver (stated fixed store.old.cells texts.now) (stated fixed store.new.cells texts.now) stack.new.items next (reads_cell number (calls_cell number arguments)) stack.old.items) }
    ensures light { IfOk result (λ next. IsLight stack.new.items next stack.old.items) }
{
    let Some(cell) = store.get(number) else {
        return Ok(Next::Leave(Beyond::NotYet));
    };
    let callee = callee_of(alloc, cell)?;
    call_callee(alloc, stack, store, texts, number, callee, arguments)
}

/// What a cell is when it is called.
fn callee_of(alloc: Global, cell: &Cell) -> Result<Callee, NoMemory>
    ensures { IfOk result (λ callee. (number : ℕ) (arguments : List Value) → calls_cell number arguments cell.now ≡ calls_callee number callee arguments) }
{
    match cell {
        Cell::Function {
            text,
            function,
            scope,
        } => Ok(Callee::Function(Closure {
            text: *text,
            function: *function,
            scope: *scope,
        })),
        Cell::Bound { receiver, method } => bound_callee(alloc, receiver, method),
        Cell::Class { .. } => Ok(Callee::Class),
        Cell::HostFunc { .. } => Err(NoMemory),
        Cell::List(_) => Ok(Callee::Other),
        Cell::Dict { .. } => Ok(Callee::Other),
        Cell::Scope { .. } => Ok(Callee::Other),
        Cell::Namespace { .. } => Ok(Callee::Other),
        Cell::Instance { .. } => Ok(Callee::Other),
        Cell::Iter { .. } => Ok(Callee::Other),
        Cell::View { .. } => Ok(Callee::Other),
        Cell::Range { .. } => Ok(Callee::Other),
        Cell::Host(_) => Ok(Callee::Other),
        Cell::Conn { .. } => Ok(Callee::Other),
        Cell::Modules { .. } => Ok(Callee::Other),
        Cell::Root => Ok(Callee::Other),
    }
}

/// What a bound method runs, with its receiver.
fn bound_callee(alloc: Global, receiver: &Value, method: &Method) -> Result<Callee, NoMemory>
    ensures { IfOk result (λ callee. (number : ℕ) (arguments : List Value) → calls_bound receiver.now arguments method.now ≡ calls_callee number callee arguments) }
{
    let receiver = receiver.copy(alloc)?;
    match method {
        Method::Function(function) => Ok(Callee::Method {
            receiver,
            function: function.copy(alloc)?,
        }),
        Method::Builtin(method) => Ok(Callee::Builtin {
            receiver,
            method: *method,
        }),
    }
}

/// What the cell of this number is, is called.
fn call_callee(
    alloc: Global,
    stack: &mut Vec<Frame>,
    store: &mut Store,
    texts: &[Program],
    number: u32,
    callee: Callee,
    arguments: Items<Value>,
) -> Result<Next, NoMemory>
    ensures means { IfOk result (λ next. (fixed : State) → MeansOver (stated fixed store.old.cells texts.now) (stated fixed store.new.cells texts.now) stack.new.items next (calls_callee number callee arguments) stack.old.items) }
    ensures light { IfOk result (λ next. IsLight stack.new.items next stack.old.items) }
{
    match callee {
        Callee::Function(closure) => {
            call_function(alloc, stack, store, texts, closure, arguments.as_slice())
        }
        Callee::Method { receiver, function } => {
            call_bound(alloc, receiver, function, arguments)
        }
        Callee::Builtin { receiver, method } => call_method(
            alloc,
            stack,
            store,
            &receiver,
            method,
            arguments.as_slice(),
        ),
        Callee::Class => make_instance(alloc, stack, store, number, arguments),
        Callee::Other => refuse(alloc, "not callable"),
    }
}

/// A bound function is called with the receiver first, by an operation of its own (Python Language Reference, "Instance
/// methods").
fn call_bound(
    alloc: Global,
    receiver: Value,
    function: Value,
    arguments: Items<Value>,
) -> Result<Next, NoMemory>
    ensures means { IfOk result (λ next. (stack : List Frame) → Means stack next (asked (operation.Call function (receiver ∷ arguments))) stack) }
    ensures light { IfOk result (λ next. (stack : List Frame) → IsLight stack next stack) }
{
    let mut all = Items::new(alloc);
    all.push(receiver)?;
    all.append(arguments)?;
    Ok(operate(Operation::Call {
        callee: function,
        arguments: all,
    }))
}

/// A function is called. `Leave(NotYet)` where its text has no function of its number.
fn call_function(
    alloc: Global,
    stack: &mut Vec<Frame>,
    store: &mut Store,
    texts: &[Program],
    closure: Closure,
    arguments: &[Value],
) -> Result<Next, NoMemory>
    ensures means { IfOk result (λ next. (fixed : State) → MeansOver (stated fixed store.old.cells texts.now) (stated fixed store.new.cells texts.now) stack.new.items next (calls_function closure.text closure.function closure.scope arguments.now) stack.old.items) }
    ensures light { IfOk result (λ next. IsLight stack.new.items next stack.old.items) }
{
    match function_at(texts, closure.text, closure.function) {
        Some(info) => { judge_arguments(alloc, stack, store, texts, closure, arguments, info) }
        None => Ok(Next::Leave(Beyond::NotYet)),
    }
}

/// There are as many arguments as parameters, or a `TypeError` is raised before anything is made.
fn judge_arguments(
    alloc: Global,
    stack: &mut Vec<Frame>,
    store: &mut Store,
    texts: &[Program],
    closure: Closure,
    arguments: &[Value],
    info: &FunctionInfo,
) -> Result<Next, NoMemory>
    ensures means { IfOk result (λ next. (fixed : State) → MeansOver (stated fixed store.old.cells texts.now) (stated fixed store.new.cells texts.now) stack.new.items next (runs_function closure.text closure.function closure.scope arguments.now info.now) stack.old.items) }
    ensures light { IfOk result (λ next. IsLight stack.new.items next stack.old.items) }
{
    if info.parameters.len() == arguments.len() {
        begin_call(alloc, stack, store, texts, closure, arguments, info)
    } else {
        refuse(alloc, "wrong number of arguments")
    }
}

/// The call gets a scope of its own, in which its parameters are bound, and its body begins.
fn begin_call(
    alloc: Global,
    stack: &mut Vec<Frame>,
    store: &mut Store,
    texts: &[Program],
    closure: Closure,
    arguments: &[Value],
    info: &FunctionInfo,
) -> Result<Next, NoMemory>
    requires { length info.now.parameters ≡ length arguments.now }
    ensures means { IfOk result (λ next. (fixed : State) → MeansOver (stated fixed store.old.cells texts.now) (stated fixed store.new.cells texts.now) stack.new.items next (begins_call closure.text closure.function closure.scope arguments.now info.now) stack.old.items) }
    ensures light { IfOk result (λ next. IsLight stack.new.items next stack.old.items) }
{
    let names = bind_parameters(alloc, info.parameters.as_slice(), arguments)?;
    let parent = closure.scope;
    let scope = make_cell(store, Cell::Scope { names, parent })?;
    let env = Env {
        text: closure.text,
        function: Some(closure.function),
        scope,
    };
    begin_body(alloc, stack, store, texts, env, info, parent)
}
