ghost use Rattle.std.specs.Prelude.{◌≡◌, ◌==◌, ◌<◌, ◌≤◌, ◌++◌, [], ◌∷◌, OnErr, OnOk, Some, insert, length, remove, reverse, slice_get, slice_set};

use rp_base::{NoMemory, Value};
use std::alloc::Global;
use std::marker::Model;
use std::mem;

/// The items of a list, which contracts see as the list of them.
#[derive(Drop)]
pub struct Values {
    values: Vec<Value>,
}

impl Model for Values {
    ghost use Rattle.std.specs.Prelude.{List};
    ghost use Rattle.rp_base.specs.declared.value.Value.{Value as Item};
    ghost use Rattle.rp_base.specs.contracts.plain.Plain as plain_type;
    ghost use Rattle.rp_base.specs.contracts.value.Value as value_type;
    ghost use Rattle.std.specs.Coded.{codes};

    ghost Value = { List Item };

    ghost coded = { Prim.hlevel (codes, plain_type.the_row.coded, value_type.the_row.coded) };

    ghost view = { λ v. v.values.items };
}

impl Values {
    pub fn new(alloc: Global) -> Values
        ensures { result ≡ [] }
    {
        Values {
            values: Vec::new(alloc),
        }
    }

    /// These items. It takes no memory.
    pub fn from_vec(values: Vec<Value>) -> Values
        ensures { result ≡ values.items }
    {
        Values { values }
    }

    /// The items back. It takes no memory.
    pub fn into_vec(self) -> Vec<Value>
        ensures { result.items ≡ self }
    {
        self.values
    }

    pub fn as_slice(&self) -> &[Value]
        ensures { result.now ≡ self.now }
    {
        self.values.as_slice()
    }

    /// How many items there are.
    pub fn len(&self) -> usize
        ensures { result ≡ length self.now }
    {
        self.values.len()
    }

    pub fn is_empty(&self) -> bool
        ensures { result ≡ (length self.now == 0) }
    {
        self.values.is_empty()
    }

    /// One item more, behind the others.
    pub fn push(&mut self, value: Value) -> Result<(), NoMemory>
        ensures ok { OnOk result (self.new ≡ self.old ++ value ∷ []) }
        ensures err { OnErr result (self.new ≡ self.old) }
    {
        Ok(self.values.push(value)?)
    }

    /// One item more, in front of the one at this place or behind all.
    pub fn insert(&mut self, at: usize, value: Value) -> Result<(), NoMemory>
        requires { at ≤ length self.old }
        ensures ok { OnOk result (self.new ≡ insert self.old at value) }
        ensures err { OnErr result (self.new ≡ self.old) }
    {
        Ok(self.values.insert(at, value)?)
    }

    /// Takes the item at this place out.
    pub fn remove(&mut self, at: usize) -> Value
        requires { at < length self.old }
        ensures item { slice_get self.old at ≡ Some result }
        ensures left { self.new ≡ remove self.old at }
    {
        self.values.remove(at)
    }

    /// Puts an item in the place of the one there, and gives the old one.
    pub fn replace(&mut self, at: usize, value: Value) -> Value
        requires { at < length self.old }
        ensures old { slice_get self.old at ≡ Some result }
        ensures new { self.new ≡ slice_set self.old at value }
    {
        mem::replace(&mut self.values[at], value)
    }

    /// The items the other way round.
    pub fn reverse(&mut self)
        ensures { self.new ≡ reverse self.old }
    {
        self.values.reverse();
    }
}
