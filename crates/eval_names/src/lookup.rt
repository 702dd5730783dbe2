ghost use Rattle.std.specs.Prelude.{◌≡◌, option_copied, slice_get};
ghost use Rattle.py_store.specs.Cells.{cell_of};
ghost use Rattle.language_rules.specs.AtOnce.{stated};
ghost use Rattle.language_rules.specs.Names.{around, outer_place, place_of};
ghost use Rattle.language_rules.specs.States.{State};
ghost use Rattle.language_rules.specs.Texts.{function_of, has_name};
ghost use Rattle.eval_names.specs.Places.{meant};

use crate::place::Place;
use object_operations::Env;
use py_ast::{FunctionInfo, Program};
use py_store::{Cell, Store};
use rp_base::Text;

/// Whether the name is among these.
pub fn has_name(name: &str, others: &[Text]) -> bool
    ensures { result ≡ has_name name.now others.now }
{
    for other in others {
        if name == other.as_str() {
            return true;
        }
    }
    false
}

/// The function of this number in the text of this number.
pub fn function_at(texts: &[Program], text: u32, number: u32) -> Option<&FunctionInfo>
    ensures { option_copied result ≡ function_of (slice_get texts.now text) number }
{
    texts
        .get(text as usize)?
        .functions
        .as_slice()
        .get(number as usize)
}

/// The scope in which the scope of this number was made.
fn around(store: &Store, scope: u32) -> u32
    ensures { result ≡ around (cell_of store.now.cells scope) }
{
    match store.get(scope) {
        Some(Cell::Scope { parent, .. }) => *parent,
        _ => 0,
    }
}

/// Where a name is, for the code that runs.
pub(crate) fn place_of(store: &Store, texts: &[Program], env: Env, name: &str) -> Place
    ensures { (fixed : State) → place_of (stated fixed store.now.cells texts.now) env name.now ≡ meant result }
{
    let Some(number) = env.function else {
        return Place::Global;
    };
    let Some(info) = function_at(texts, env.text, number) else {
        return Place::Missing;
    };
    if has_name(name, info.locals.as_slice()) {
        return Place::Own(env.scope);
    }
    if !has_name(name, info.free.as_slice()) {
        return Place::Global;
    }
    let scope = around(store, env.scope);
    outer_place(store, texts, env.text, name, number, info.parent, scope)
}

/// Of this function and those around it the first that has the name as its own, with its scope: the scope given is that
/// of this function.
fn outer_place(
    store: &Store,
    texts: &[Program],
    text: u32,
    name: &str,
    most: u32,
    function: Option<u32>,
    scope: u32,
) -> Place
    ensures { (fixed : State) → outer_place (stated fixed store.now.cells texts.now) text name.now most function scope ≡ meant result }
{
    let mut function = function;
    let mut scope = scope;
    'steps: for done in 0..most {
        let Some(number) = function else {
            return Place::Missing;
        };
        let Some(info) = function_at(texts, text, number) else {
            return Place::Missing;
        };
        if has_name(name, info.locals.as_slice()) {
            return Place::Outer(scope);
        }
        function = info.parent;
        scope = around(store, scope);
    }
    Place::Missing
}
