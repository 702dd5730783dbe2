ghost use Rattle.std.specs.Prelude.{◌≡◌, IfOk, length};
ghost use Rattle.language_rules.specs.Functions.{parameters_bound};

use py_ast::Name;
use py_store::Binding;
use rp_base::{NoMemory, Value};
use sqlite_items::Items;
use std::alloc::Global;

/// The parameters, each bound to its argument.
pub(crate) fn bind_parameters(
    alloc: Global,
    parameters: &[Name],
    arguments: &[Value],
) -> Result<Items<Binding>, NoMemory>
    requires { length parameters.now ≡ length arguments.now }
    ensures { IfOk result (λ names. names ≡ parameters_bound parameters.now arguments.now) }
{
    let mut names = Items::new(alloc);
    for i in 0..parameters.len() {
        let name = parameters[i].text.copy(alloc)?;
        let value = arguments[i].copy(alloc)?;
        names.push(Binding { name, value })?;
    }
    Ok(names)
}
