ghost use Rattle.std.specs.Prelude.{◌≡◌, IfOk};

use crate::expression::Link;
use crate::name::Name;
use rp_base::{NoMemory, Text};
use sqlite_items::Items;
use std::alloc::Global;

pub(crate) fn copy_numbers(numbers: &Items<u32>, alloc: Global) -> Result<Items<u32>, NoMemory>
    ensures { IfOk result (λ all. all ≡ numbers.now) }
{
    Ok(Items::from_slice(alloc, numbers.as_slice())?)
}

pub(crate) fn copy_links(links: &Items<Link>, alloc: Global) -> Result<Items<Link>, NoMemory>
    ensures { IfOk result (λ all. all ≡ links.now) }
{
    Ok(Items::from_slice(alloc, links.as_slice())?)
}

pub(crate) fn copy_texts(texts: &Items<Text>, alloc: Global) -> Result<Items<Text>, NoMemory>
    ensures { IfOk result (λ all. all ≡ texts.now) }
{
    let mut all = Items::new(alloc);
    for text in texts.as_slice() {
        all.push(text.copy(alloc)?)?;
    }
    Ok(all)
}

pub(crate) fn copy_names(names: &Items<Name>, alloc: Global) -> Result<Items<Name>, NoMemory>
    ensures { IfOk result (λ all. all ≡ names.now) }
{
    let mut all = Items::new(alloc);
    for name in names.as_slice() {
        all.push(name.copy(alloc)?)?;
    }
    Ok(all)
}

pub(crate) fn copy_option(name: &Option<Name>, alloc: Global) -> Result<Option<Name>, NoMemory>
    ensures { IfOk result (λ n. n ≡ name.now) }
{
    match name {
        Some(name) => Ok(Some(name.copy(alloc)?)),
        None => Ok(None),
    }
}
