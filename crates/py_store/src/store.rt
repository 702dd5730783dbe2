ghost use Rattle.std.specs.Prelude.{◌≡◌, ◌+◌, ◌<◌, ◌≤◌, ◌++◌, [], ◌∷◌, IfOk, OnOk, OnErr, Some, length, option_copied, option_map};
ghost use Rattle.py_store.specs.Attributes.{attribute_value, first_holder, own_attributes, parent_of};
ghost use Rattle.py_store.specs.Cells.{cell_of, with_cell, most_cells};
ghost use Rattle.py_store.specs.Identities.{class_name, full_name, identity, identity_as, identity_of, number_of};

use crate::cell::{Binding, Cell};
use crate::names::find_binding;
use rp_base::{IdPack, NoMemory, Side, Text, Value};
use std::alloc::Global;
use std::marker::Model;
use std::mem;

/// The cells of a side. A cell's number is one plus the number of cells made before it.
#[derive(Drop)]
pub struct Store {
    side: Side,
    cells: Vec<Cell>,
}

/// Where an attribute is kept: its holder's number, and its place among the holder's attributes.
#[derive(Clone, Copy, Debug, PartialEq, Eq)]
pub struct Place {
    pub holder: u32,
    pub at: usize,
}

impl Model for Store {
    ghost use Rattle.std.specs.Prelude.{◌≤◌, length};
    ghost use Rattle.py_store.specs.Cells.{Cells, most_cells};
    ghost use Rattle.rp_base.specs.contracts.plain.Plain as plain_type;
    ghost use Rattle.rp_base.specs.contracts.value.Value as value_type;
    ghost use Rattle.std.specs.Coded.{codes};

    ghost Value = { Cells };

    ghost coded = { Prim.hlevel (codes, plain_type.the_row.coded, value_type.the_row.coded) };

    ghost view = { λ s. record { side = s.side; cells = s.cells.items } };

    ghost invariant = { λ s. length s.cells.items ≤ most_cells };
}

impl Store {
    pub fn new(alloc: Global, side: Side) -> Store
        ensures { result ≡ record { side = side; cells = [] } }
    {
        Store {
            side,
            cells: Vec::new(alloc),
        }
    }

    pub fn side(&self) -> Side
        ensures { result ≡ self.now.side }
    {
        self.side
    }

    /// How many cells there are.
    pub fn size(&self) -> u32
        ensures size { result ≡ length self.now.cells }
        ensures most { result ≤ most_cells }
    {
        self.cells.len() as u32
    }

    /// The cell of this number, if there is one.
    pub fn get(&self, number: u32) -> Option<&Cell>
        ensures { option_copied result ≡ cell_of self.now.cells number }
    {
        self.cells.get((number as usize).checked_sub(1)?)
    }

    /// Adds a cell and gives its number. The size is below 4,000,000,000 before it.
    pub fn make(&mut self, cell: Cell) -> Result<u32, NoMemory>
        requires { length self.old.cells < most_cells }
        ensures number { IfOk result (λ number. number ≡ length self.old.cells + 1) }
        ensures ok { OnOk result (self.new ≡ record self.old { cells = self.old.cells ++ cell ∷ [] }) }
        ensures err { OnErr result (self.new ≡ self.old) }
    {
        self.cells.push(cell)?;
        Ok(self.cells.len() as u32)
    }

    /// The cell of this number, which is from 1 to the size.
    pub fn cell(&self, number: u32) -> &Cell
        requires { (0 < number) × (number ≤ length self.now.cells) }
        ensures { cell_of self.now.cells number ≡ Some result.now }
    {
        &self.cells[number as usize - 1]
    }

    /// Puts a cell in the place of that of this number, which is from 1 to the size, and gives the old one.
    pub fn replace(&mut self, number: u32, cell: Cell) -> Cell
        requires { (0 < number) × (number ≤ length self.old.cells) }
        ensures old { cell_of self.old.cells number ≡ Some result }
        ensures new { self.new ≡ record self.old { cells = with_cell self.old.cells number cell } }
    {
        mem::replace(&mut self.cells[number as usize - 1], cell)
    }

    /// The identity by which the other side knows the cell of this number.
    pub fn id_pack(&self, alloc: Global, number: u32) -> Result<IdPack, NoMemory>
        ensures { IfOk result (λ id. id ≡ identity_of self.now.cells number) }
    {
        match self.get(number) {
            Some(cell) => self.identity(alloc, cell, number),
            None => builtin(alloc, "", 0),
        }
    }

    fn identity(&self, alloc: Global, cell: &Cell, number: u32) -> Result<IdPack, NoMemory>
        ensures { IfOk result (λ id. id ≡ identity_as self.now.cells number (Some cell.now)) }
    {
        match cell {
            Cell::List(_) => builtin(alloc, "builtins.list", number),
            Cell::Dict { .. } => builtin(alloc, "builtins.dict", number),
            Cell::Scope { .. } => builtin(alloc, "", 0),
            Cell::Namespace { .. } => builtin(alloc, "builtins.dict", number),
            Cell::Function { .. } => builtin(alloc, "builtins.function", number),
            Cell::Class { name, .. } => of_class(alloc, name.as_str(), number, 0),
            Cell::Instance { class, .. } => {
                of_class(alloc, self.class_name(*class), *class, number)
            }
            Cell::Bound { .. } => builtin(alloc, "builtins.method", number),
            Cell::Iter { .. } => builtin(alloc, "builtins.iterator", number),
            Cell::View { .. } => builtin(alloc, "builtins.view", number),
            Cell::Range { .. } => builtin(alloc, "builtins.range", number),
            Cell::Host(_) => builtin(alloc, "builtins.module", number),
            Cell::HostFunc { .. } => builtin(alloc, "builtins.hostfunc", number),
            Cell::Conn { .. } => builtin(alloc, "rpyc.core.protocol.Connection", number),
            Cell::Modules { .. } => builtin(alloc, "rpyc.core.service.ModuleNamespace", number),
            Cell::Root => builtin(alloc, "rpyc.core.service.SlaveService", number),
        }
    }

    /// The name of the class of this number.
    fn class_name(&self, number: u32) -> &str
        ensures { result.now ≡ class_name (cell_of self.now.cells number) }
    {
        match self.get(number) {
            Some(cell) => class_name(cell),
            None => "",
        }
    }

    /// The first cell that has an attribute of this name: the cell of this number, its class and the bases in turn.
    pub fn find_attr(&self, number: u32, name: &str) -> Option<Place>
        ensures { option_map (λ p. (p.holder, p.at)) result ≡ first_holder self.now.cells number name.now }
    {
        let mut holder = number;
        for _ in 0..self.cells.len() + 1 {
            if let Some(at) = find_binding(self.own_attributes(holder), name) {
                return Some(Place { holder, at });
            }
            holder = self.parent(holder)?;
        }
        None
    }

    /// The value of an attribute of this name, with the number of the first cell that has it.
    pub fn get_attr(&self, number: u32, name: &str) -> Option<(u32, &Value)>
        ensures { option_map (λ p. (p.0, p.1.now)) result ≡ attribute_value self.now.cells number name.now }
    {
        let place = self.find_attr(number, name)?;
        let binding = self.own_attributes(place.holder).get(place.at)?;
        Some((place.holder, &binding.value))
    }

    /// The attributes of the cell of this number.
    fn own_attributes(&self, number: u32) -> &[Binding]
        ensures { result.now ≡ own_attributes (cell_of self.now.cells number) }
    {
        match self.get(number) {
            Some(cell) => own_attributes(cell),
            None => &[],
        }
    }

    /// The class of an instance, or the base of a class.
    fn parent(&self, number: u32) -> Option<u32>
        ensures { result ≡ parent_of (cell_of self.now.cells number) }
    {
        parent(self.get(number)?)
    }
}

fn class_name(cell: &Cell) -> &str
    ensures { result.now ≡ class_name (Some cell.now) }
{
    match cell {
        Cell::Class { name, .. } => name.as_str(),
        _ => "",
    }
}

fn own_attributes(cell: &Cell) -> &[Binding]
    ensures { result.now ≡ own_attributes (Some cell.now) }
{
    match cell {
        Cell::Class { attributes, .. } => attributes.as_slice(),
        Cell::Instance { attributes, .. } => attributes.as_slice(),
        _ => &[],
    }
}

fn parent(cell: &Cell) -> Option<u32>
    ensures { result ≡ parent_of (Some cell.now) }
{
    match cell {
        Cell::Class { base, .. } => *base,
        Cell::Instance { class, .. } => Some(*class),
        _ => None,
    }
}

fn builtin(alloc: Global, name: &str, number: u32) -> Result<IdPack, NoMemory>
    ensures { IfOk result (λ id. id ≡ identity name.now 0 number) }
{
    Ok(IdPack {
        name: Text::from_str(alloc, name)?,
        class_no: 0,
        inst_no: u64::from(number),
    })
}

fn of_class(alloc: Global, name: &str, class: u32, instance: u32) -> Result<IdPack, NoMemory>
    ensures { IfOk result (λ id. id ≡ identity (full_name name.now) class instance) }
{
    let mut full = String::from_str(alloc, "__main__.")?;
    full.push_str(name)?;
    Ok(IdPack {
        name: Text::from_string(full),
        class_no: u64::from(class),
        inst_no: u64::from(instance),
    })
}

/// The number of the cell that this identity names.
pub fn cell_number(id: &IdPack) -> u64
    ensures { result ≡ number_of id.now }
{
    if id.inst_no == 0 {
        id.class_no
    } else {
        id.inst_no
    }
}
