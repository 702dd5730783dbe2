ghost use Rattle.std.specs.Prelude.{◌≡◌, List, ℕ, option_copied, reverse};
ghost use Rattle.py_ast.specs.declared.program.Program.{Program};
ghost use Rattle.py_store.specs.Cells.{cell_of};
ghost use Rattle.eval_frames.specs.Meaning.{classed};
ghost use Rattle.language_rules.specs.Classes.{global_value, made_class, on_base, on_same};
ghost use Rattle.language_rules.specs.Going.{RuleTree};
ghost use Rattle.language_rules.specs.States.{State, namespace_number};
ghost use Rattle.eval_classes.specs.Bodies.{FindsBase, on_class};

use object_operations::{Env, MadeClass};
use py_ast::Name;
use py_store::{Cell, Store, bound};
use rp_base::Value;

/// The number of the cell with a side's global names.
const NAMESPACE: u32 = 1;

/// The base of a class: none, or the class that its name stands for now. There is no answer where it is not the class that
/// the newest class statement of this name in this text made.
pub(crate) fn base_class(
    store: &Store,
    classes: &[MadeClass],
    env: Env,
    base: &Option<Name>,
) -> Option<Option<u32>>
    ensures { (fixed : State) (texts : List Program) → FindsBase (classed fixed store.now.cells texts classes.now) (on_base env base.now) result }
{
    let Some(name) = base else {
        return Some(None);
    };
    let named = global_value(store, name.text.as_str());
    let made = made_class(classes, env.text, name.text.as_str());
    match same_class(named, made) {
        Some(number) => Some(Some(number)),
        None => None,
    }
}

/// What the global name stands for.
fn global_value<'a>(store: &'a Store, name: &str) -> Option<&'a Value>
    ensures { option_copied result ≡ global_value name.now (cell_of store.now.cells namespace_number) }
{
    match store.get(NAMESPACE) {
        Some(Cell::Namespace { names, .. }) => bound(names.as_slice(), name),
        _ => None,
    }
}

/// The class that the newest class statement of this name in this text made.
fn made_class(classes: &[MadeClass], text: u32, name: &str) -> Option<u32>
    ensures { result ≡ made_class text name.now (reverse classes.now) }
{
    for class in classes.iter().rev() {
        if class.text == text && name == class.name.as_str() {
            return Some(class.number);
        }
    }
    None
}

/// The number of the class, where both are the same.
fn same_class(named: Option<&Value>, made: Option<u32>) -> Option<u32>
    ensures { (f : ℕ → RuleTree) → on_same f (option_copied named.entry) made ≡ on_class f result }
{
    let Some(Value::Own(number)) = named else {
        return None;
    };
    let Some(made) = made else {
        return None;
    };
    if *number == made { Some(*number) } else { None }
}
