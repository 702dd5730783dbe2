ghost use Rattle.std.specs.Prelude.{◌≡◌, IfOk};
ghost use Rattle.rp_base.specs.Identity.{kind_named};

use crate::ends::NoMemory;
use crate::text::Text;
use std::alloc::Global;

/// The identity of a cell as the other side knows it, after the `id_pack` of RPyC's module `netref`: the name of its
/// class, a number for the class, and a number for the instance, which is 0 for a class.
#[derive(Drop)]
pub struct IdPack {
    pub name: Text,
    pub class_no: u64,
    pub inst_no: u64,
}

impl IdPack {
    pub fn copy(&self, alloc: Global) -> Result<IdPack, NoMemory>
        ensures { IfOk result (λ id. id ≡ self.now) }
    {
        Ok(IdPack {
            name: self.name.copy(alloc)?,
            class_no: self.class_no,
            inst_no: self.inst_no,
        })
    }
}

/// The kinds of cells that a reference may name.
#[derive(Clone, Copy, Debug, PartialEq, Eq)]
pub enum Kind {
    List,
    Range,
    Function,
    /// A method of an object, bound to it.
    Bound,
    Dict,
    /// A side's own names, as a dict: its cell 1, and its only one.
    Namespace,
    /// An iterator over a collection.
    Iter,
    /// The keys, values or items of a dict.
    View,
    /// A class of a script.
    Class,
    /// An instance of such a class.
    Instance,
    /// A module that the program around a side offers.
    Host,
    /// A function of such a module.
    HostFunc,
    /// The service that a side offers.
    Root,
    /// The connection itself.
    Conn,
    /// The modules that a side offers, by their names.
    Modules,
}

/// The kind of cell that this identity names. A dict with the instance number 1 is its side's namespace, and a name
/// that no kind has is that of a class of a script or of its instance.
pub fn kind_of(id: &IdPack) -> Kind
    ensures { result ≡ kind_named id.now.name id.now.inst_no }
{
    match id.name.as_str() {
        "builtins.dict" if id.inst_no == 1 => Kind::Namespace,
        "builtins.dict" => Kind::Dict,
        "builtins.list" => Kind::List,
        "builtins.range" => Kind::Range,
        "builtins.function" => Kind::Function,
        "builtins.method" => Kind::Bound,
        "builtins.iterator" => Kind::Iter,
        "builtins.view" => Kind::View,
        "builtins.module" => Kind::Host,
        "builtins.hostfunc" => Kind::HostFunc,
        "rpyc.core.service.SlaveService" => Kind::Root,
        "rpyc.core.protocol.Connection" => Kind::Conn,
        "rpyc.core.service.ModuleNamespace" => Kind::Modules,
        _ if id.inst_no == 0 => Kind::Class,
        _ => Kind::Instance,
    }
}
