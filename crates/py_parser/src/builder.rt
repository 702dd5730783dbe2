ghost use Rattle.std.specs.Prelude.{◌≡◌, length, IfOk};
ghost use Rattle.py_parser.specs.BuildingActs.{acted, holds};
ghost use Rattle.py_parser.specs.Building.{begun, program_of, rooted, stuck, taken_in, with_node, with_tree, with_suite, place_tree, statement_tree, value_tree};

mod expressions;
mod functions;
mod gathering;
mod signs;
mod statements;
mod targets;

use crate::parts::{Form, Functions, Gathering, Sign, Stack, Tree, Word};
use py_ast::{Expression, Link, Name, Node, Program, Statement};
use py_grammar::{Act, Guard, Limits};
use rp_base::{BinaryOp, NoMemory, Plain, UnaryOp};
use sqlite_items::Items;
use std::alloc::Global;

/// What is built while a text is read: the nodes so far, and one stack for each kind of part that waits to be used.
#[derive(Drop)]
pub(crate) struct Building<'a> {
    pub(crate) nodes: Items<Node>,
    pub(crate) lines: Items<u32>,
    pub(crate) functions: Functions,
    /// The innermost function that has begun and not ended.
    pub(crate) function: Option<u32>,
    pub(crate) trees: Stack<Tree>,
    pub(crate) lists: Stack<Gathering>,
    pub(crate) names: Stack<Option<Name>>,
    pub(crate) name_lists: Stack<Items<Name>>,
    pub(crate) suites: Stack<Option<u32>>,
    /// Lines on which something has begun.
    pub(crate) marks: Stack<u32>,
    pub(crate) signs: Stack<BinaryOp>,
    pub(crate) unary_signs: Stack<UnaryOp>,
    pub(crate) comparisons: Stack<Sign>,
    pub(crate) links: Stack<Items<Link>>,
    /// The token that was taken last, and its line.
    pub(crate) word: Word<'a>,
    pub(crate) line: u32,
}

impl<'a> Building<'a> {
    pub(crate) fn new(alloc: Global) -> Building<'a>
        ensures { result ≡ begun }
    {
        Building {
            nodes: Items::new(alloc),
            lines: Items::new(alloc),
            functions: Functions::new(alloc),
            function: None,
            trees: Stack::new(alloc),
            lists: Stack::new(alloc),
            names: Stack::new(alloc),
            name_lists: Stack::new(alloc),
            suites: Stack::new(alloc),
            marks: Stack::new(alloc),
            signs: Stack::new(alloc),
            unary_signs: Stack::new(alloc),
            comparisons: Stack::new(alloc),
            links: Stack::new(alloc),
            word: Word::new(""),
            line: 1,
        }
    }

    /// Takes a token's text and its line.
    pub(crate) fn take_in(&mut self, word: &'a str, line: u32)
        ensures { self.new ≡ taken_in word.now line self.old }
    {
        self.word = Word::new(word);
        self.line = line;
    }

    /// Where the parts that an act asks for are not there.
    fn stop(&mut self) -> Result<(), NoMemory>
        ensures { IfOk result (λ _. self.new ≡ stuck self.old) }
    {
        self.trees.clear();
        self.lists.clear();
        self.names.clear();
        self.name_lists.clear();
        self.suites.clear();
        self.marks.clear();
        self.signs.clear();
        self.unary_signs.clear();
        self.comparisons.clear();
        self.links.clear();
        Ok(())
    }

    /// Adds a node, and answers its number.
    fn push_node(&mut self, node: Node, line: u32) -> Result<u32, NoMemory>
        ensures { IfOk result (λ number. (number ≡ length self.old.nodes) × (self.new ≡ with_node node line self.old)) }
    {
        let Ok(number) = u32::try_from(self.nodes.len()) else {
            return Err(NoMemory);
        };
        self.nodes.push(node)?;
        self.lines.push(line)?;
        Ok(number)
    }

    /// Adds a node that is a tree with this line of its first token.
    fn push_tree(
        &mut self,
        node: Node,
        line: u32,
        first_line: u32,
        form: Form,
    ) -> Result<(), NoMemory>
        ensures { IfOk result (λ _. self.new ≡ with_tree node line first_line form self.old) }
    {
        let number = self.push_node(node, line)?;
        self.trees.push(Tree {
            number,
            line: first_line,
            form,
        })
    }

    fn push_suite(&mut self, statement: Statement, line: u32) -> Result<(), NoMemory>
        ensures { IfOk result (λ _. self.new ≡ with_suite statement line self.old) }
    {
        let number = self.push_node(Node::Statement(statement), line)?;
        self.suites.push(Some(number))
    }

    fn push_value(&mut self, expression: Expression, line: u32) -> Result<(), NoMemory>
        ensures { IfOk result (λ _. self.new ≡ value_tree expression line self.old) }
    {
        self.push_tree(Node::Expression(expression), line, line, Form::Value)
    }

    fn push_place(
        &mut self,
        expression: Expression,
        line: u32,
        first_line: u32,
    ) -> Result<(), NoMemory>
        ensures { IfOk result (λ _. self.new ≡ place_tree expression line first_line self.old) }
    {
        self.push_tree(Node::Expression(expression), line, first_line, Form::Place)
    }

    fn push_statement(&mut self, statement: Statement, line: u32) -> Result<(), NoMemory>
        ensures { IfOk result (λ _. self.new ≡ statement_tree statement line self.old) }
    {
        self.push_tree(Node::Statement(statement), line, line, Form::Value)
    }

    /// Builds what this act builds.
    #[tactic(auto, unfolding(crate::specs::BuildingActs::acted))]
    pub(crate) fn act(&mut self, alloc: Global, act: Act) -> Result<(), NoMemory>
        ensures { IfOk result (λ _. self.new ≡ acted act self.old) }
    {
        match act {
            Act::Nothing => Ok(()),
            Act::Mark => self.mark(),
            Act::Begin => self.begin_list(alloc),
            Act::BeginWith => self.begin_with(alloc),
            Act::Add => self.add(),
            Act::BeginNames => self.begin_names(alloc),
            Act::AddName => self.add_name(alloc),
            Act::Name => self.name(alloc),
            Act::NoName => self.no_name(),
            Act::BeginLinks => self.begin_links(alloc),
            Act::AddLink => self.add_link(),
            Act::BinarySign => self.binary_sign(),
            Act::UnarySign => self.unary_sign(),
            Act::ComparisonSign => self.comparison_sign(),
            Act::Negate => self.negate(),
            Act::MakeSuite => self.suite(),
            Act::NoSuite => self.no_suite(),
            Act::MakeHandler => self.handler(),
            Act::MakeIf => self.branch(),
            Act::MakeElif => self.other_branch(),
            Act::MakeWhile => self.loop_while(),
            Act::MakeFor => self.loop_over(alloc),
            Act::MakeTry => self.attempt(),
            Act::BeginDef => self.begin_def(alloc),
            Act::MakeDef => self.end_def(),
            Act::MakeClass => self.class(),
            Act::MakePass => self.pass(),
            Act::MakeBreak => self.leave_loop(),
            Act::MakeContinue => self.go_on(),
            Act::MakeReturn => self.give_back(),
            Act::MakeReturnNone => self.give_none(),
            Act::MakeReraise => self.raise_again(),
            Act::MakeRaiseName => self.raise_name(),
            Act::MakeRaise => self.raise_call(),
            Act::MakeGlobal => self.global(),
            Act::MakeNonlocal => self.nonlocal(),
            Act::MakeDel => self.delete(alloc),
            Act::MakeExpression => self.alone(),
            Act::MakeAssign => self.assign(alloc),
            Act::MakeAugmented => self.augment(alloc),
            Act::MakeTuple => self.tuple(),
            Act::MakeEmptyTuple => self.empty_tuple(alloc),
            Act::MakeWithin => self.within(),
            Act::MakeName => self.name_tree(alloc),
            Act::MakeNone => self.constant(Plain::None),
            Act::MakeTrue => self.constant(Plain::Bool(true)),
            Act::MakeFalse => self.constant(Plain::Bool(false)),
            Act::MakeEllipsis => self.constant(Plain::Ellipsis),
            Act::MakeInt => self.int(),
            Act::MakeText => self.text(alloc),
            Act::MakeBytes => self.byte_string(alloc),
            Act::MakeAttribute => self.attribute(alloc),
            Act::MakeItem => self.item(),
            Act::MakeCall => self.call(),
            Act::BeginLambda => self.begin_lambda(alloc),
            Act::MakeLambda => self.end_lambda(),
            Act::MakeConditional => self.conditional(),
            Act::MakeOr => self.either(),
            Act::MakeAnd => self.both(),
            Act::MakeNot => self.inverse(),
            Act::MakeCompare => self.compare(),
            Act::MakeBinary => self.binary(),
            Act::MakeUnary => self.unary(),
            Act::MakeList => self.list(),
            Act::MakeDict => self.dict(),
        }
    }

    /// Whether a guard holds here.
    #[tactic(auto, unfolding(crate::specs::BuildingActs::holds))]
    pub(crate) fn holds(&self, limits: &Limits, guard: Guard) -> bool
        ensures { result ≡ holds limits.now guard self.now }
    {
        match guard {
            Guard::FewerArguments => self
                .lists
                .top()
                .is_some_and(|list| list.numbers.len() < limits.arguments as usize),
            Guard::FewerParameters => self
                .name_lists
                .top()
                .is_some_and(|names| names.len() < limits.arguments as usize),
            Guard::Targets => matches!(
                self.trees.top(),
                Some(Tree {
                    form: Form::Place | Form::Places,
                    ..
                })
            ),
            Guard::Place => matches!(
                self.trees.top(),
                Some(Tree {
                    form: Form::Place,
                    ..
                })
            ),
        }
    }

    /// The tree of a text that was read to its end. Names are not told apart yet: no function has its own names, and no
    /// handler's name is listed.
    pub(crate) fn finish(mut self, alloc: Global, is_expression: bool) -> Result<Program, NoMemory>
        ensures { IfOk result (λ p. p ≡ program_of is_expression self.entry) }
    {
        self.root(alloc)?;
        let Ok(root) = u32::try_from(self.nodes.len().saturating_sub(1)) else {
            return Err(NoMemory);
        };
        Ok(Program {
            nodes: self.nodes,
            lines: self.lines,
            root,
            functions: self.functions.into_items(),
            handler_names: Items::new(alloc),
            is_expression,
        })
    }

    /// Sees to it that there is a node.
    fn root(&mut self, alloc: Global) -> Result<(), NoMemory>
        ensures { IfOk result (λ _. self.new ≡ rooted self.old.nodes self.old) }
    {
        match self.nodes.as_slice() {
            [] => {
                let suite = Statement::Suite(Items::new(alloc));
                self.push_node(Node::Statement(suite), self.line)?;
                Ok(())
            }
            [_, ..] => Ok(()),
        }
    }
}
