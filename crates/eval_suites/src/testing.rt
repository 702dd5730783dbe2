ghost use Rattle.eval_suites.specs.Within.{IsTested};

use eval_at_once::{DEPTH, evaluate};
use object_operations::Env;
use py_ast::Program;
use py_store::Store;
use std::alloc::Global;
use value_operators::truth;

/// The truth of a test, and the units that are left behind it.
#[derive(Clone, Copy, Debug, PartialEq, Eq)]
pub struct Tested {
    pub holds: bool,
    pub left: u64,
}

/// The truth of the test of this number, with the units that are left of those given. None where it is not to be had at
/// once.
pub(crate) fn test_at_once(
    alloc: Global,
    store: &Store,
    texts: &[Program],
    env: Env,
    test: u32,
    units: u64,
) -> Option<Tested>
    ensures { IsTested store.now.cells texts.now env test units result }
{
    let tested = evaluate(alloc, store, texts, env, test, units, DEPTH)?;
    match truth(&tested.value) {
        Ok(Some(holds)) => Some(Tested {
            holds,
            left: tested.left,
        }),
        _ => None,
    }
}
