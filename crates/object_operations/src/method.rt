ghost use Rattle.std.specs.Prelude.{◌≡◌};
ghost use Rattle.object_operations.specs.Names.{method_name};

/// The methods of lists, dicts, namespaces, texts and roots (Python Library Reference, "Built-in Types").
#[derive(Clone, Copy, Debug, PartialEq, Eq)]
pub enum BuiltinMethod {
    Append,
    Clear,
    Extend,
    Index,
    Insert,
    Pop,
    Remove,
    Reverse,
    Get,
    Items,
    Keys,
    SetDefault,
    Values,
    EndsWith,
    Find,
    Join,
    Replace,
    Split,
    StartsWith,
    Strip,
    Eval,
    Execute,
    GetModule,
}

impl BuiltinMethod {
    /// The method's name.
    pub fn text(&self) -> &str
        ensures { result.now ≡ method_name self.now }
    {
        match self {
            BuiltinMethod::Append => "append",
            BuiltinMethod::Clear => "clear",
            BuiltinMethod::Extend => "extend",
            BuiltinMethod::Index => "index",
            BuiltinMethod::Insert => "insert",
            BuiltinMethod::Pop => "pop",
            BuiltinMethod::Remove => "remove",
            BuiltinMethod::Reverse => "reverse",
            BuiltinMethod::Get => "get",
            BuiltinMethod::Items => "items",
            BuiltinMethod::Keys => "keys",
            BuiltinMethod::SetDefault => "setdefault",
            BuiltinMethod::Values => "values",
            BuiltinMethod::EndsWith => "endswith",
            BuiltinMethod::Find => "find",
            BuiltinMethod::Join => "join",
            BuiltinMethod::Replace => "replace",
            BuiltinMethod::Split => "split",
            BuiltinMethod::StartsWith => "startswith",
            BuiltinMethod::Strip => "strip",
            BuiltinMethod::Eval => "eval",
            BuiltinMethod::Execute => "execute",
            BuiltinMethod::GetModule => "getmodule",
        }
    }
}
