ghost use Rattle.std.specs.Prelude.{◌≡◌, List};
ghost use Rattle.object_operations.specs.Names.{dict_methods, list_methods, method_among, text_methods};
ghost use Rattle.eval_frames.specs.declared.frame.Frame.{Frame};
ghost use Rattle.eval_frames.specs.Meaning.{IsLight, Means};
ghost use Rattle.language_rules.specs.Attributes.{bound_method};

use eval_frames::Next;
use object_operations::BuiltinMethod;
use py_store::{Cell, Method};
use rp_base::{Beyond, Value};

/// A method of a builtin kind is bound to its object; no other attribute of these kinds is in the subset.
pub(crate) fn bind_method(receiver: Value, method: Option<BuiltinMethod>) -> Next
    ensures means { (stack : List Frame) → Means stack result (bound_method receiver method) stack }
    ensures light { (stack : List Frame) → IsLight stack result stack }
{
    match method {
        Some(method) => Next::Make(Cell::Bound {
            receiver,
            method: Method::Builtin(method),
        }),
        None => Next::Leave(Beyond::Attribute),
    }
}

/// The method of lists that has this name (Python Library Reference, "Mutable Sequence Types").
pub(crate) fn list_method(name: &str) -> Option<BuiltinMethod>
    ensures { result ≡ method_among list_methods name.now }
{
    let methods = [
        BuiltinMethod::Append,
        BuiltinMethod::Clear,
        BuiltinMethod::Extend,
        BuiltinMethod::Index,
        BuiltinMethod::Insert,
        BuiltinMethod::Pop,
        BuiltinMethod::Remove,
        BuiltinMethod::Reverse,
    ];
    method_among(&methods, name)
}

/// The method of dicts that has this name (Python Library Reference, "Mapping Types").
pub(crate) fn dict_method(name: &str) -> Option<BuiltinMethod>
    ensures { result ≡ method_among dict_methods name.now }
{
    let methods = [
        BuiltinMethod::Clear,
        BuiltinMethod::Get,
        BuiltinMethod::Items,
        BuiltinMethod::Keys,
        BuiltinMethod::Pop,
        BuiltinMethod::SetDefault,
        BuiltinMethod::Values,
    ];
    method_among(&methods, name)
}

/// The method of texts that has this name (Python Library Reference, "String Methods").
pub(crate) fn text_method(name: &str) -> Option<BuiltinMethod>
    ensures { result ≡ method_among text_methods name.now }
{
    let methods = [
        BuiltinMethod::EndsWith,
        BuiltinMethod::Find,
        BuiltinMethod::Join,
        BuiltinMethod::Replace,
        BuiltinMethod::Split,
        BuiltinMethod::StartsWith,
        BuiltinMethod::Strip,
    ];
    method_among(&methods, name)
}

/// The method of this name among these.
fn method_among(methods: &[BuiltinMethod], name: &str) -> Option<BuiltinMethod>
    ensures { result ≡ method_among methods.now name.now }
{
    for method in methods {
        if name == method.text() {
            return Some(*method);
        }
    }
    None
}
