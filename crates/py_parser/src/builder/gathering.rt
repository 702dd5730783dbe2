ghost use Rattle.std.specs.Prelude.{◌≡◌, IfOk};
ghost use Rattle.py_parser.specs.BuildingLists.{add, add_link, add_name, begin_links, begin_list, begin_names, begin_with, last_name, mark, name, no_name, no_suite, suite, within};

use crate::builder::Building;
use crate::parts::{Form, Gathering, Tree};
use py_ast::{Link, Name, Statement};
use rp_base::{NoMemory, Text};
use sqlite_items::Items;
use std::alloc::Global;

impl Building<'_> {
    pub(super) fn mark(&mut self) -> Result<(), NoMemory>
        ensures { IfOk result (λ _. self.new ≡ mark self.old) }
    {
        self.marks.push(self.line)
    }

    pub(super) fn begin_list(&mut self, alloc: Global) -> Result<(), NoMemory>
        ensures { IfOk result (λ _. self.new ≡ begin_list self.old) }
    {
        self.lists.push(Gathering {
            numbers: Items::new(alloc),
            line: self.line,
            form: Form::Places,
        })
    }

    pub(super) fn begin_with(&mut self, alloc: Global) -> Result<(), NoMemory>
        ensures { IfOk result (λ _. self.new ≡ begin_with self.old.trees self.old) }
    {
        let Some(tree) = self.trees.pop() else {
            return self.stop();
        };
        let mut numbers = Items::new(alloc);
        numbers.push(tree.number)?;
        self.lists.push(Gathering {
            numbers,
            line: tree.line,
            form: Form::Places.joined(tree.form),
        })
    }

    pub(super) fn add(&mut self) -> Result<(), NoMemory>
        ensures { IfOk result (λ _. self.new ≡ add self.old.trees self.old.lists self.old) }
    {
        let (Some(tree), Some(mut list)) = (self.trees.pop(), self.lists.pop()) else {
            return self.stop();
        };
        list.numbers.push(tree.number)?;
        list.form = list.form.joined(tree.form);
        self.lists.push(list)
    }

    /// The last token, as a name.
    pub(super) fn last_name(&self, alloc: Global) -> Result<Name, NoMemory>
        ensures { IfOk result (λ n. n ≡ last_name self.now) }
    {
        Ok(Name {
            text: Text::from_str(alloc, self.word.as_str())?,
            line: self.line,
        })
    }

    pub(super) fn begin_names(&mut self, alloc: Global) -> Result<(), NoMemory>
        ensures { IfOk result (λ _. self.new ≡ begin_names self.old) }
    {
        self.name_lists.push(Items::new(alloc))
    }

    pub(super) fn add_name(&mut self, alloc: Global) -> Result<(), NoMemory>
        ensures { IfOk result (λ _. self.new ≡ add_name self.old.name_lists self.old) }
    {
        let Some(mut names) = self.name_lists.pop() else {
            return self.stop();
        };
        names.push(self.last_name(alloc)?)?;
        self.name_lists.push(names)
    }

    pub(super) fn name(&mut self, alloc: Global) -> Result<(), NoMemory>
        ensures { IfOk result (λ _. self.new ≡ name self.old) }
    {
        let name = self.last_name(alloc)?;
        self.names.push(Some(name))
    }

    pub(super) fn no_name(&mut self) -> Result<(), NoMemory>
        ensures { IfOk result (λ _. self.new ≡ no_name self.old) }
    {
        self.names.push(None)
    }

    pub(super) fn suite(&mut self) -> Result<(), NoMemory>
        ensures { IfOk result (λ _. self.new ≡ suite self.old.lists self.old) }
    {
        let Some(list) = self.lists.pop() else {
            return self.stop();
        };
        self.push_suite(Statement::Suite(list.numbers), list.line)
    }

    pub(super) fn no_suite(&mut self) -> Result<(), NoMemory>
        ensures { IfOk result (λ _. self.new ≡ no_suite self.old) }
    {
        self.suites.push(None)
    }

    pub(super) fn begin_links(&mut self, alloc: Global) -> Result<(), NoMemory>
        ensures { IfOk result (λ _. self.new ≡ begin_links self.old) }
    {
        self.links.push(Items::new(alloc))
    }

    pub(super) fn add_link(&mut self) -> Result<(), NoMemory>
        ensures { IfOk result (λ _. self.new ≡ add_link self.old.trees self.old.comparisons self.old.links self.old) }
    {
        let (Some(tree), Some(sign), Some(mut links)) = (
            self.trees.pop(),
            self.comparisons.pop(),
            self.links.pop(),
        ) else {
            return self.stop();
        };
        links.push(Link {
            comparison: sign.comparison,
            line: sign.line,
            right: tree.number,
        })?;
        self.links.push(links)
    }

    /// A tree in parentheses.
    pub(super) fn within(&mut self) -> Result<(), NoMemory>
        ensures { IfOk result (λ _. self.new ≡ within self.old.trees self.old.marks self.old) }
    {
        let (Some(tree), Some(line)) = (self.trees.pop(), self.marks.pop()) else {
            return self.stop();
        };
        self.trees.push(Tree {
            number: tree.number,
            line,
            form: Form::Value,
        })
    }
}
