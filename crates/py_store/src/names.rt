ghost use Rattle.std.specs.Prelude.{◌≡◌, OnOk, OnErr, option_copied};
ghost use Rattle.py_store.specs.Bindings.{binding_place, bound_value, with_binding, without_binding};

use crate::cell::Binding;
use rp_base::{NoMemory, Text, Value};
use sqlite_items::Items;

/// The place of the name.
pub fn find_binding(bindings: &[Binding], name: &str) -> Option<usize>
    ensures { result ≡ binding_place name.now bindings.now }
{
    bindings
        .iter()
        .position(|binding| name == binding.name.as_str())
}

/// The value that the name is bound to.
pub fn bound<'a>(bindings: &'a [Binding], name: &str) -> Option<&'a Value>
    ensures { option_copied result ≡ bound_value name.now bindings.now }
{
    let at = find_binding(bindings, name)?;
    Some(&bindings[at].value)
}

/// Binds the name to the value. A bound name keeps its place, and a new one goes last.
pub fn bind(bindings: &mut Items<Binding>, name: Text, value: Value) -> Result<(), NoMemory>
    ensures ok { OnOk result (bindings.new ≡ with_binding name value bindings.old) }
    ensures err { OnErr result (bindings.new ≡ bindings.old) }
{
    match find_binding(bindings.as_slice(), name.as_str()) {
        Some(at) => bindings.set(at, Binding { name, value }),
        None => bindings.push(Binding { name, value })?,
    }
    Ok(())
}

/// Takes the name out and gives its value. The others keep their order.
pub fn unbind(bindings: &mut Items<Binding>, name: &str) -> Option<Value>
    ensures value { result ≡ bound_value name.now bindings.old }
    ensures left { bindings.new ≡ without_binding name.now bindings.old }
{
    let at = find_binding(bindings.as_slice(), name)?;
    Some(bindings.remove(at).value)
}
