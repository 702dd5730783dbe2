ghost use Rattle.std.specs.Prelude.{◌≡◌, ◌==◌, ◌<◌, [], IfOk, OnOk, OnErr, Some, length, option_copied, option_map, slice_get};
ghost use Rattle.std.specs.Map.{lookup_entry};
ghost use Rattle.rp_base.specs.PlainValues.{equal_to};
ghost use Rattle.py_store.specs.EntryLists.{AreUnequal, entry_place, entry_value, with_entry, without_entry};

use crate::key::Key;
use indexmap::IndexMap;
use rp_base::{NoMemory, Plain, Value};
use std::alloc::Global;
use std::marker::Model;

/// The entries of a dict, in the order in which their keys came, under Python's equality of keys.
#[derive(Drop)]
pub struct Entries {
    map: IndexMap<Key, Value>,
}

impl Model for Entries {
    ghost use Rattle.py_store.specs.EntryLists.{EntryList};
    ghost use Rattle.rp_base.specs.contracts.plain.Plain as plain_type;
    ghost use Rattle.rp_base.specs.contracts.value.Value as value_type;
    ghost use Rattle.std.specs.Coded.{codes};

    ghost Value = { EntryList };

    ghost coded = { Prim.hlevel (codes, plain_type.the_row.coded, value_type.the_row.coded) };

    ghost view = { λ e. e.map.entries };
}

impl Entries {
    pub fn new(alloc: Global) -> Entries
        ensures { result ≡ [] }
    {
        Entries {
            map: IndexMap::new(alloc),
        }
    }

    pub fn len(&self) -> usize
        ensures len { result ≡ length self.now }
        ensures unequal { AreUnequal self.now }
    {
        self.map.len()
    }

    pub fn is_empty(&self) -> bool
        ensures { result ≡ (length self.now == 0) }
    {
        self.map.len() == 0
    }

    /// The place of the key that equals this one.
    pub fn find(&self, key: &Key) -> Option<usize>
        ensures { result ≡ entry_place key.now self.now }
    {
        self.map.get_index_of(key)
    }

    /// The key at this place.
    pub fn key_at(&self, at: usize) -> &Plain
        requires { at < length self.now }
        ensures { option_map (λ e. e.0) (slice_get self.now at) ≡ Some result.now }
    {
        self.map.get_index(at).unwrap().0.plain()
    }

    /// The value at this place.
    pub fn value_at(&self, at: usize) -> &Value
        requires { at < length self.now }
        ensures { option_map (λ e. e.1) (slice_get self.now at) ≡ Some result.now }
    {
        self.map.get_index(at).unwrap().1
    }

    /// The value beside the key that equals this one.
    pub fn get(&self, key: &Key) -> Option<&Value>
        ensures { option_copied result ≡ entry_value key.now self.now }
    {
        self.map.get(key)
    }

    /// Takes the entry of the key that equals this one out. The others keep their order.
    #[tactic(auto, using(crate::proofs::Taking::entry_found, crate::proofs::Taking::entry_missing))]
    pub fn take(&mut self, key: &Key) -> Option<(Plain, Value)>
        ensures taken { result ≡ lookup_entry (equal_to key.now) self.old }
        ensures left { self.new ≡ without_entry key.now self.old }
    {
        let (key, value) = self.map.shift_remove_entry(key)?;
        Some((key.into_plain(), value))
    }

    /// An equal key keeps its spelling and its place, and its old value is given. A new key goes last.
    pub fn put(&mut self, key: Plain, value: Value) -> Result<Option<Value>, NoMemory>
        ensures old { IfOk result (λ old. old ≡ entry_value key self.old) }
        ensures ok { OnOk result (self.new ≡ with_entry key value self.old) }
        ensures err { OnErr result (self.new ≡ self.old) }
    {
        Ok(self.map.insert(Key::new(key), value)?)
    }
}
