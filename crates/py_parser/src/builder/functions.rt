ghost use Rattle.std.specs.Prelude.{◌≡◌, IfOk, slice_get};
ghost use Rattle.py_parser.specs.BuildingFunctions.{begin_def, begin_lambda, end_def, end_lambda, with_function, without_function};

use crate::builder::Building;
use py_ast::{Expression, FunctionInfo, Name, Statement};
use rp_base::{NoMemory, Text};
use sqlite_items::Items;
use std::alloc::Global;

impl Building<'_> {
    pub(super) fn begin_def(&mut self, alloc: Global) -> Result<(), NoMemory>
        ensures { IfOk result (λ _. self.new ≡ begin_def self.old.name_lists self.old.names self.old) }
    {
        let (Some(parameters), Some(Some(name))) = (self.name_lists.pop(), self.names.pop()) else {
            return self.stop();
        };
        self.begin_function(alloc, name.text, parameters)
    }

    pub(super) fn begin_lambda(&mut self, alloc: Global) -> Result<(), NoMemory>
        ensures { IfOk result (λ _. self.new ≡ begin_lambda self.old.name_lists self.old) }
    {
        let Some(parameters) = self.name_lists.pop() else {
            return self.stop();
        };
        self.begin_function(alloc, Text::from_str(alloc, "<lambda>")?, parameters)
    }

    pub(super) fn end_def(&mut self) -> Result<(), NoMemory>
        ensures { IfOk result (λ _. self.new ≡ end_def self.old.function self.old.suites self.old.marks self.old) }
    {
        let (Some(number), Some(Some(body)), Some(line)) = (
            self.function,
            self.suites.pop(),
            self.marks.pop(),
        ) else {
            return self.stop();
        };
        self.end_function(number, body)?;
        self.push_statement(Statement::Def(number), line)
    }

    pub(super) fn end_lambda(&mut self) -> Result<(), NoMemory>
        ensures { IfOk result (λ _. self.new ≡ end_lambda self.old.function self.old.trees self.old.marks self.old) }
    {
        let (Some(number), Some(body), Some(line)) = (
            self.function,
            self.trees.pop(),
            self.marks.pop(),
        ) else {
            return self.stop();
        };
        self.end_function(number, body.number)?;
        self.push_value(Expression::Lambda(number), line)
    }

    fn begin_function(
        &mut self,
        alloc: Global,
        name: Text,
        parameters: Items<Name>,
    ) -> Result<(), NoMemory>
        ensures { IfOk result (λ _. self.new ≡ with_function name parameters self.old) }
    {
        let Ok(number) = u32::try_from(self.functions.as_slice().len()) else {
            return Err(NoMemory);
        };
        self.functions.push(FunctionInfo {
            name,
            parameters,
            locals: Items::new(alloc),
            free: Items::new(alloc),
            has_inner: false,
            parent: self.function,
            body: 0,
        })?;
        self.function = Some(number);
        Ok(())
    }

    /// The innermost function has this number, and ends with this body.
    fn end_function(&mut self, number: u32, body: u32) -> Result<(), NoMemory>
        ensures { IfOk result (λ _. self.new ≡ without_function number body (slice_get self.old.functions number) self.old) }
    {
        let parent = match self.functions.as_slice().get(number as usize) {
            Some(info) => info.parent,
            None => return self.stop(),
        };
        self.functions.set_body(number as usize, body);
        self.function = parent;
        Ok(())
    }
}
