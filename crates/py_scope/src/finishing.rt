ghost use Rattle.std.specs.Prelude.{◌≡◌, ◌++◌, ◌||◌, ◌<◌, ℕ, List, map, nat_eq, length, slice_get, Some, IfOk, OnOk};
ghost use Rattle.indexmap.specs.IndexSet.{contains};
ghost use Rattle.py_scope.specs.Forms.{is_number};
ghost use Rattle.py_scope.specs.Finished.{parameter_names, other_locals, free_names, has_inner, finished_function, finished_from};
ghost use Rattle.py_scope.specs.Names.{Each};
ghost use Rattle.py_scope.specs.Tables.{Knows};

use crate::facts::Facts;
use crate::name_set::NameSet;
use indexmap::IndexSet;
use py_ast::{FunctionInfo, Name};
use rp_base::{NoMemory, Text};
use sqlite_items::Items;
use std::alloc::Global;

fn note_parent(parents: &mut IndexSet<usize>, parent: Option<u32>) -> Result<(), NoMemory>
    ensures { OnOk result ((f : ℕ) → contains nat_eq parents.new f ≡ contains nat_eq parents.old f || is_number f parent) }
{
    let Some(number) = parent else {
        return Ok(());
    };
    parents.insert_full(number as usize)?;
    Ok(())
}

/// The functions inside which a function stands.
fn parents(alloc: Global, functions: &[FunctionInfo]) -> Result<IndexSet<usize>, NoMemory>
    ensures { IfOk result (λ s. (f : ℕ) → contains nat_eq s f ≡ has_inner functions.now f) }
{
    let mut found = IndexSet::new(alloc);
    for info in functions {
        note_parent(&mut found, info.parent)?;
    }
    Ok(found)
}

fn copy_names(alloc: Global, names: &[Name]) -> Result<Items<Name>, NoMemory>
    ensures { IfOk result (λ c. c ≡ names.now) }
{
    let mut copies = Items::new(alloc);
    for name in names {
        copies.push(name.copy(alloc)?)?;
    }
    Ok(copies)
}

fn texts_of(alloc: Global, names: &[Name]) -> Result<Items<Text>, NoMemory>
    ensures { IfOk result (λ t. t ≡ map (λ n. n.text) names.now) }
{
    let mut texts = Items::new(alloc);
    for name in names {
        texts.push(name.text.copy(alloc)?)?;
    }
    Ok(texts)
}

/// A function with what it keeps.
fn with_names(
    alloc: Global,
    info: &FunctionInfo,
    others: &NameSet,
    free: &NameSet,
    has_inner: bool,
) -> Result<FunctionInfo, NoMemory>
    ensures { IfOk result (λ f. f ≡ record info.now { locals = parameter_names info.now ++ others.now; free = free.now; has_inner = has_inner }) }
{
    let mut locals = texts_of(alloc, info.parameters.as_slice())?;
    locals.append(others.texts(alloc)?)?;
    Ok(FunctionInfo {
        name: info.name.copy(alloc)?,
        parameters: copy_names(alloc, info.parameters.as_slice())?,
        locals,
        free: free.texts(alloc)?,
        has_inner,
        parent: info.parent,
        body: info.body,
    })
}

impl<'a> Facts<'a> {
    /// The function at this place with what it keeps.
    fn finished_at(
        &self,
        alloc: Global,
        place: usize,
        others: &[NameSet<'a>],
        free: &[NameSet<'a>],
        parents: &IndexSet<usize>,
    ) -> Result<FunctionInfo, NoMemory>
        requires within { place < length self.now.functions.now }
        requires others { Each (length self.now.functions.now) (other_locals self.now.mentions.now self.now.mentions.now) others.now }
        requires free { Each (length self.now.functions.now) (free_names self.now.mentions.now self.now.functions.now self.now.mentions.now) free.now }
        requires parents { (f : ℕ) → contains nat_eq parents.now f ≡ has_inner self.now.functions.now f }
        ensures { IfOk result (λ f. (info : FunctionInfo) → slice_get self.now.functions.now place ≡ Some info → f ≡ finished_function self.now.mentions.now self.now.functions.now place info) }
    {
        let has_inner = parents.contains(&place);
        let function = with_names(
            alloc,
            &self.functions[place],
            &others[place],
            &free[place],
            has_inner,
        )?;
        Ok(function)
    }

    /// The script's functions with what they keep.
    pub fn finished(&self, alloc: Global) -> Result<Items<FunctionInfo>, NoMemory>
        requires { Knows self.now }
        ensures { IfOk result (λ fs. fs ≡ finished_from self.now.mentions.now self.now.functions.now 0 self.now.functions.now) }
    {
        let others = self.other_locals(alloc)?;
        let free = self.free_names(alloc)?;
        let parents = parents(alloc, self.functions)?;
        let mut finished = Items::new(alloc);
        for place in 0..self.functions.len() {
            let function = self.finished_at(
                alloc,
                place,
                others.as_slice(),
                free.as_slice(),
                &parents,
            )?;
            finished.push(function)?;
        }
        Ok(finished)
    }
}
