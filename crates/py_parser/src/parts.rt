ghost use Rattle.std.specs.Prelude.{◌≡◌, [], ◌∷◌, ◌++◌, ◌<◌, length, OnOk, OnErr, MatchOption};
ghost use Rattle.std.specs.Option.{option_copied};
ghost use Rattle.py_parser.specs.BuildingParts.{front, with_body, joined};

use py_ast::{Comparison, FunctionInfo};
use rp_base::NoMemory;
use sqlite_items::Items;
use std::alloc::Global;
use std::marker::Model;

/// What was read and is not used yet, the last first.
#[derive(Drop)]
pub(crate) struct Stack<T> {
    items: Vec<T>,
}

impl<T> Model for Stack<T> {
    ghost use Rattle.std.specs.Prelude.{List, reverse};
    ghost use Rattle.std.specs.Coded.{coded_list};

    ghost Value = { List T };

    ghost coded = { coded_list T.code };

    ghost view = { λ s. reverse s.items.items };
}

impl<T> Stack<T> {
    pub(crate) fn new(alloc: Global) -> Stack<T>
        ensures { result ≡ [] }
    {
        Stack {
            items: Vec::new(alloc),
        }
    }

    pub(crate) fn pop(&mut self) -> Option<T>
        ensures { MatchOption result ((self.old ≡ []) × (self.new ≡ [])) (λ top. self.old ≡ top ∷ self.new) }
    {
        self.items.pop()
    }

    /// What was pushed last.
    pub(crate) fn top(&self) -> Option<&T>
        ensures { option_copied result ≡ front self.now }
    {
        self.items.last()
    }
}

impl<T: Drop> Stack<T> {
    pub(crate) fn push(&mut self, item: T) -> Result<(), NoMemory>
        ensures ok { OnOk result (self.new ≡ item ∷ self.old) }
        ensures err { OnErr result (self.new ≡ self.old) }
    {
        self.items.push(item)?;
        Ok(())
    }

    pub(crate) fn clear(&mut self)
        ensures { self.new ≡ [] }
    {
        self.items.clear();
    }
}

/// The text of a token.
#[derive(Drop)]
pub(crate) struct Word<'a> {
    text: &'a str,
}

impl<'a> Model for Word<'a> {
    ghost use Rattle.std.specs.Prelude.{List, ℕ};

    ghost Value = { List ℕ };

    ghost view = { λ w. w.text.now };
}

impl<'a> Word<'a> {
    pub(crate) fn new(text: &'a str) -> Word<'a>
        ensures { result ≡ text.now }
    {
        Word { text }
    }

    pub(crate) fn as_str(&self) -> &'a str
        ensures { result.now ≡ self.now }
    {
        self.text
    }
}

/// What a tree may stand for on the left of `=`.
#[derive(Clone, Copy)]
pub(crate) enum Form {
    /// A name, an attribute or an item, not in parentheses.
    Place,
    /// Places with a comma, not in parentheses.
    Places,
    /// What is no target.
    Value,
}

impl Form {
    /// Of a list with one more tree of this form.
    pub(crate) fn joined(self, form: Form) -> Form
        ensures { result ≡ joined self form }
    {
        match (self, form) {
            (Form::Places, Form::Place) => Form::Places,
            _ => Form::Value,
        }
    }
}

/// A finished tree: the number of its node, and the line of its first token, of its parenthesis where it has one.
#[derive(Clone, Copy)]
pub(crate) struct Tree {
    pub(crate) number: u32,
    pub(crate) line: u32,
    pub(crate) form: Form,
}

/// Trees with commas between them, or statements, by their numbers, with the line on which they begin.
#[derive(Drop)]
pub(crate) struct Gathering {
    pub(crate) numbers: Items<u32>,
    pub(crate) line: u32,
    /// That of a tuple without parentheses.
    pub(crate) form: Form,
}

/// The sign of a comparison, with its line.
#[derive(Clone, Copy)]
pub(crate) struct Sign {
    pub(crate) comparison: Comparison,
    pub(crate) line: u32,
}

/// The functions of a script, by their numbers.
#[derive(Drop)]
pub(crate) struct Functions {
    items: Vec<FunctionInfo>,
}

impl Model for Functions {
    ghost use Rattle.std.specs.Prelude.{List};
    ghost use Rattle.std.specs.Coded.{coded_list, codes};
    ghost use Rattle.py_ast.specs.declared.program.FunctionInfo.{FunctionInfo};
    ghost use Rattle.py_ast.specs.contracts.program.FunctionInfo as info;

    ghost Value = { List FunctionInfo };

    ghost coded = { coded_list (Prim.hlevel (codes, info.the_row.coded)) };

    ghost view = { λ f. f.items.items };
}

impl Functions {
    pub(crate) fn new(alloc: Global) -> Functions
        ensures { result ≡ [] }
    {
        Functions {
            items: Vec::new(alloc),
        }
    }

    pub(crate) fn as_slice(&self) -> &[FunctionInfo]
        ensures { result.now ≡ self.now }
    {
        self.items.as_slice()
    }

    pub(crate) fn push(&mut self, info: FunctionInfo) -> Result<(), NoMemory>
        ensures ok { OnOk result (self.new ≡ self.old ++ info ∷ []) }
        ensures err { OnErr result (self.new ≡ self.old) }
    {
        self.items.push(info)?;
        Ok(())
    }

    /// Gives the function of this number its body.
    pub(crate) fn set_body(&mut self, number: usize, body: u32)
        requires { number < length self.old }
        ensures { self.new ≡ with_body number body self.old }
    {
        self.items[number].body = body;
    }

    pub(crate) fn into_items(self) -> Items<FunctionInfo>
        ensures { result ≡ self }
    {
        Items::from_vec(self.items)
    }
}
