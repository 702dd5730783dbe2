ghost use Rattle.std.specs.Prelude.{◌≡◌, IfOk, None};
ghost use Rattle.py_parser.specs.BuildingStatements.{alone, attempt, bare, branch, declare, give_back, handler, loop_while, make_class, other_branch, raise_call, raise_name, word_alone};

use crate::builder::Building;
use py_ast::Statement;
use rp_base::NoMemory;

impl Building<'_> {
    pub(super) fn pass(&mut self) -> Result<(), NoMemory>
        ensures { IfOk result (λ _. self.new ≡ word_alone Statement.Pass self.old) }
    {
        self.push_statement(Statement::Pass, self.line)
    }

    pub(super) fn leave_loop(&mut self) -> Result<(), NoMemory>
        ensures { IfOk result (λ _. self.new ≡ word_alone Statement.Break self.old) }
    {
        self.push_statement(Statement::Break, self.line)
    }

    pub(super) fn go_on(&mut self) -> Result<(), NoMemory>
        ensures { IfOk result (λ _. self.new ≡ word_alone Statement.Continue self.old) }
    {
        self.push_statement(Statement::Continue, self.line)
    }

    pub(super) fn alone(&mut self) -> Result<(), NoMemory>
        ensures { IfOk result (λ _. self.new ≡ alone self.old.trees self.old) }
    {
        let Some(tree) = self.trees.pop() else {
            return self.stop();
        };
        self.push_statement(Statement::Alone(tree.number), tree.line)
    }

    pub(super) fn give_back(&mut self) -> Result<(), NoMemory>
        ensures { IfOk result (λ _. self.new ≡ give_back self.old.trees self.old.marks self.old) }
    {
        let (Some(tree), Some(line)) = (self.trees.pop(), self.marks.pop()) else {
            return self.stop();
        };
        self.push_statement(Statement::Return(Some(tree.number)), line)
    }

    pub(super) fn give_none(&mut self) -> Result<(), NoMemory>
        ensures { IfOk result (λ _. self.new ≡ bare (Statement.Return None) self.old.marks self.old) }
    {
        let Some(line) = self.marks.pop() else {
            return self.stop();
        };
        self.push_statement(Statement::Return(None), line)
    }

    pub(super) fn raise_again(&mut self) -> Result<(), NoMemory>
        ensures { IfOk result (λ _. self.new ≡ bare Statement.RaiseAgain self.old.marks self.old) }
    {
        let Some(line) = self.marks.pop() else {
            return self.stop();
        };
        self.push_statement(Statement::RaiseAgain, line)
    }

    pub(super) fn raise_name(&mut self) -> Result<(), NoMemory>
        ensures { IfOk result (λ _. self.new ≡ raise_name self.old.names self.old.marks self.old) }
    {
        let (Some(Some(name)), Some(line)) = (self.names.pop(), self.marks.pop()) else {
            return self.stop();
        };
        self.push_statement(Statement::RaiseName(name), line)
    }

    pub(super) fn raise_call(&mut self) -> Result<(), NoMemory>
        ensures { IfOk result (λ _. self.new ≡ raise_call self.old.lists self.old.names self.old.marks self.old) }
    {
        let (Some(arguments), Some(Some(name)), Some(line)) = (
            self.lists.pop(),
            self.names.pop(),
            self.marks.pop(),
        ) else {
            return self.stop();
        };
        let statement = Statement::RaiseCall {
            name,
            arguments: arguments.numbers,
        };
        self.push_statement(statement, line)
    }

    pub(super) fn global(&mut self) -> Result<(), NoMemory>
        ensures { IfOk result (λ _. self.new ≡ declare Statement.Global self.old.name_lists self.old.marks self.old) }
    {
        let (Some(names), Some(line)) = (self.name_lists.pop(), self.marks.pop()) else {
            return self.stop();
        };
        self.push_statement(Statement::Global(names), line)
    }

    pub(super) fn nonlocal(&mut self) -> Result<(), NoMemory>
        ensures { IfOk result (λ _. self.new ≡ declare Statement.Nonlocal self.old.name_lists self.old.marks self.old) }
    {
        let (Some(names), Some(line)) = (self.name_lists.pop(), self.marks.pop()) else {
            return self.stop();
        };
        self.push_statement(Statement::Nonlocal(names), line)
    }

    pub(super) fn branch(&mut self) -> Result<(), NoMemory>
        ensures { IfOk result (λ _. self.new ≡ branch self.old.trees self.old.suites self.old.marks self.old) }
    {
        let (Some(test), Some(otherwise), Some(Some(then)), Some(line)) = (
            self.trees.pop(),
            self.suites.pop(),
            self.suites.pop(),
            self.marks.pop(),
        ) else {
            return self.stop();
        };
        let statement = Statement::If {
            test: test.number,
            then,
            otherwise,
        };
        self.push_statement(statement, line)
    }

    /// An `elif`.
    pub(super) fn other_branch(&mut self) -> Result<(), NoMemory>
        ensures { IfOk result (λ _. self.new ≡ other_branch self.old.trees self.old.suites self.old.marks self.old) }
    {
        let (Some(test), Some(otherwise), Some(Some(then)), Some(line)) = (
            self.trees.pop(),
            self.suites.pop(),
            self.suites.pop(),
            self.marks.pop(),
        ) else {
            return self.stop();
        };
        let statement = Statement::If {
            test: test.number,
            then,
            otherwise,
        };
        self.push_suite(statement, line)
    }

    pub(super) fn loop_while(&mut self) -> Result<(), NoMemory>
        ensures { IfOk result (λ _. self.new ≡ loop_while self.old.trees self.old.suites self.old.marks self.old) }
    {
        let (Some(test), Some(Some(body)), Some(line)) = (
            self.trees.pop(),
            self.suites.pop(),
            self.marks.pop(),
        ) else {
            return self.stop();
        };
        let statement = Statement::While {
            test: test.number,
            body,
        };
        self.push_statement(statement, line)
    }

    /// A `try`.
    pub(super) fn attempt(&mut self) -> Result<(), NoMemory>
        ensures { IfOk result (λ _. self.new ≡ attempt self.old.lists self.old.suites self.old.marks self.old) }
    {
        let (Some(handlers), Some(finally), Some(Some(body)), Some(line)) = (
            self.lists.pop(),
            self.suites.pop(),
            self.suites.pop(),
            self.marks.pop(),
        ) else {
            return self.stop();
        };
        let statement = Statement::Try {
            body,
            handlers: handlers.numbers,
            finally,
        };
        self.push_statement(statement, line)
    }

    pub(super) fn handler(&mut self) -> Result<(), NoMemory>
        ensures { IfOk result (λ _. self.new ≡ handler self.old.name_lists self.old.names self.old.suites self.old.marks self.old) }
    {
        let (Some(kinds), Some(name), Some(Some(body)), Some(line)) = (
            self.name_lists.pop(),
            self.names.pop(),
            self.suites.pop(),
            self.marks.pop(),
        ) else {
            return self.stop();
        };
        self.push_statement(Statement::Except { kinds, name, body }, line)
    }

    pub(super) fn class(&mut self) -> Result<(), NoMemory>
        ensures { IfOk result (λ _. self.new ≡ make_class self.old.names self.old.suites self.old.marks self.old) }
    {
        let (Some(base), Some(Some(name)), Some(Some(body)), Some(line)) = (
            self.names.pop(),
            self.names.pop(),
            self.suites.pop(),
            self.marks.pop(),
        ) else {
            return self.stop();
        };
        self.push_statement(Statement::Class { name, base, body }, line)
    }
}
