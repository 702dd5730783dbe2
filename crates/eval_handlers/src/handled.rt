ghost use Rattle.std.specs.Prelude.{◌≡◌, IfOk, OnOk, false, option_copied, reverse};
ghost use Rattle.language_rules.specs.Handlers.{first_handling, is_called, is_named, is_of, unbinds, unbinds_behind, without_first};
ghost use Rattle.eval_handlers.specs.Unbinding.{IsLastNamed};

use object_operations::{Env, Handling};
use rp_base::{NoMemory, Text};
use sqlite_items::Items;
use std::alloc::Global;

/// The innermost exception that this run of code handles.
pub(crate) fn current(handled: &[Handling], env: Env) -> Option<&Handling>
    ensures { option_copied result ≡ first_handling (is_of env) (reverse handled.now) }
{
    for handling in handled.iter().rev() {
        if is_of(env, handling) {
            return Some(handling);
        }
    }
    None
}

/// The innermost exception of this run of code whose handler gave it this name.
pub(crate) fn named<'a>(handled: &'a [Handling], env: Env, name: &str) -> Option<&'a Handling>
    ensures { option_copied result ≡ first_handling (is_named env name.now) (reverse handled.now) }
{
    for handling in handled.iter().rev() {
        if is_named(env, name, handling) {
            return Some(handling);
        }
    }
    None
}

/// Whether it is the same run of code that handles it: the same text, and the same scope.
fn is_of(env: Env, handling: &Handling) -> bool
    ensures { result ≡ is_of env handling.now }
{
    handling.text == env.text && handling.scope == env.scope
}

fn is_named(env: Env, name: &str, handling: &Handling) -> bool
    ensures { result ≡ is_named env name.now handling.now }
{
    is_of(env, handling) && is_called(name, &handling.name)
}

fn is_called(name: &str, called: &Option<Text>) -> bool
    ensures { result ≡ is_called name.now called.now }
{
    match called {
        Some(other) => name == other.as_str(),
        None => false,
    }
}

/// The innermost exception is no longer being handled. The exception around it that has the same name leaves the name
/// unbound (Python Language Reference, "The try statement").
pub(crate) fn leave(
    alloc: Global,
    handled: &mut Items<Handling>,
    env: Env,
    name: &Option<Text>,
) -> Result<(), NoMemory>
    ensures { OnOk result (reverse handled.new ≡ unbinds_behind env name.now (without_first (reverse handled.old))) }
{
    remove_innermost(handled);
    unbind_behind(alloc, handled, env, name)
}

fn remove_innermost(handled: &mut Items<Handling>)
    ensures { reverse handled.new ≡ without_first (reverse handled.old) }
{
    let _ = handled.pop();
}

/// The exception around that has this name, where it is one, leaves the name unbound.
fn unbind_behind(
    alloc: Global,
    handled: &mut Items<Handling>,
    env: Env,
    name: &Option<Text>,
) -> Result<(), NoMemory>
    ensures { OnOk result (reverse handled.new ≡ unbinds_behind env name.now (reverse handled.old)) }
{
    match name {
        Some(name) => unbind(alloc, handled, env, name.as_str()),
        None => Ok(()),
    }
}

fn unbind(
    alloc: Global,
    handled: &mut Items<Handling>,
    env: Env,
    name: &str,
) -> Result<(), NoMemory>
    ensures { OnOk result (reverse handled.new ≡ unbinds env name.now (reverse handled.old)) }
{
    match last_named(handled.as_slice(), env, name) {
        Some(at) => {
            let unbound = without_name(alloc, &handled.as_slice()[at])?;
            handled.set(at, unbound);
            Ok(())
        }
        None => Ok(()),
    }
}

/// Where the innermost exception of this run of code stands whose handler gave it this name.
fn last_named(handled: &[Handling], env: Env, name: &str) -> Option<usize>
    ensures { IsLastNamed env name.now handled.now result }
{
    let mut at = handled.len();
    'steps: while at > 0 {
        at -= 1;
        if is_named(env, name, &handled[at]) {
            return Some(at);
        }
    }
    None
}

/// The same exception, whose name no longer stands for it.
fn without_name(alloc: Global, handling: &Handling) -> Result<Handling, NoMemory>
    ensures { IfOk result (λ unbound. unbound ≡ record handling.now { bound = false }) }
{
    let name = copy_name(alloc, &handling.name)?;
    let raised = handling.raised.copy(alloc)?;
    Ok(Handling {
        text: handling.text,
        scope: handling.scope,
        name,
        raised,
        bound: false,
    })
}

pub(crate) fn copy_name(alloc: Global, name: &Option<Text>) -> Result<Option<Text>, NoMemory>
    ensures { IfOk result (λ copy. copy ≡ name.now) }
{
    match name {
        Some(text) => Ok(Some(text.copy(alloc)?)),
        None => Ok(None),
    }
}
