ghost use Rattle.std.specs.Prelude.{◌≡◌, ◌++◌, ℕ, List, [], ◌∷◌, Some, None, cond, remove, slice_set};
ghost use Rattle.std.specs.Map.{keys_of, values_of};
ghost use Rattle.rp_base.specs.declared.plain.Plain.{Plain};
ghost use Rattle.rp_base.specs.declared.value.Value.{Value};
ghost use Rattle.rp_base.specs.declared.identity.Kind.{Kind};
ghost use Rattle.rp_base.specs.Identity.{kind_named};
ghost use Rattle.rp_base.specs.PlainValues.{equal_to};
ghost use Rattle.py_store.specs.declared.cell.Cell.{Cell};
ghost use Rattle.py_store.specs.Attributes.{IsLine, lineage};
ghost use Rattle.py_store.specs.Cells.{cell_of};
ghost use Rattle.py_store.specs.Identities.{NamespaceIsFirst, cell_kind, identity_of, number_of};
ghost use Rattle.py_store.specs.EntryLists.{EntryList, AreUnequal, entry_place, entry_value, with_entry, without_entry};

/// A key that equals one of the entries keeps that one's spelling and place, and only the value there changes.
pub fn equal_keys_keep_their_place()
    ensures { (key : Plain) (value : Value) (entries : EntryList) (at : ℕ) → entry_place key entries ≡ Some at → (keys_of (with_entry key value entries) ≡ keys_of entries) × (values_of (with_entry key value entries) ≡ slice_set (values_of entries) at value) }
{}

/// A key that equals none of them goes last.
pub fn new_keys_go_last()
    ensures { (key : Plain) (value : Value) (entries : EntryList) → entry_place key entries ≡ None → with_entry key value entries ≡ entries ++ (key, value) ∷ [] }
{}

/// What is put is found by every equal key, and other keys find what they found before.
pub fn what_is_put_is_found()
    ensures { (key other : Plain) (value : Value) (entries : EntryList) → entry_value other (with_entry key value entries) ≡ cond (equal_to other key) (Some value) (entry_value other entries) }
{}

/// Of an equal key only that entry is taken out, and of no equal key nothing.
pub fn one_entry_is_taken()
    ensures found { (key : Plain) (entries : EntryList) (at : ℕ) → entry_place key entries ≡ Some at → without_entry key entries ≡ remove entries at }
    ensures missing { (key : Plain) (entries : EntryList) → entry_place key entries ≡ None → without_entry key entries ≡ entries }
{}

/// What is taken out is found by no equal key, and other keys find what they found before.
pub fn what_is_taken_is_gone()
    ensures { (key other : Plain) (entries : EntryList) → AreUnequal entries → entry_value other (without_entry key entries) ≡ cond (equal_to other key) None (entry_value other entries) }
{}

/// Keys that are unequal stay so.
pub fn keys_stay_unequal()
    ensures put { (key : Plain) (value : Value) (entries : EntryList) → AreUnequal entries → AreUnequal (with_entry key value entries) }
    ensures taken { (key : Plain) (entries : EntryList) → AreUnequal entries → AreUnequal (without_entry key entries) }
{}

/// An attribute is looked up in the instance, in its class and then in the bases, up to the last one.
pub fn attributes_are_searched_in_order()
    ensures { (cells : List Cell) (number : ℕ) (numbers : List ℕ) → IsLine cells number numbers → lineage cells number ≡ numbers }
{}

/// A cell that values may refer to is the one that its identity names, so no two cells of a side have one identity.
pub fn identities_name_their_cells()
    ensures { (cells : List Cell) (number : ℕ) (c : Cell) (k : Kind) → cell_of cells number ≡ Some c → cell_kind c ≡ Some k → number_of (identity_of cells number) ≡ number }
{}

/// The kind that an identity tells is that of its cell.
pub fn identities_tell_kinds()
    ensures { (cells : List Cell) (number : ℕ) (c : Cell) (k : Kind) → NamespaceIsFirst cells → cell_of cells number ≡ Some c → cell_kind c ≡ Some k → kind_named (identity_of cells number).name (identity_of cells number).inst_no ≡ k }
{}
