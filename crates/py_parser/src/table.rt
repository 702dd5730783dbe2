ghost use Rattle.py_parser.specs.Rows.{Describes};

mod atoms;
mod expressions;
mod operators;
mod statements;
mod targets;

use py_grammar::{Act, Guard, Terminal, Word};

/// A part of a way.
#[derive(Clone, Copy)]
pub(crate) enum Part {
    Terminal(Terminal),
    Word(Word),
    /// A word one level further in.
    Inner(Word),
    Act(Act),
}

/// A way in which a word is written.
#[derive(Clone, Copy)]
pub(crate) struct Row {
    pub(crate) guard: Option<Guard>,
    pub(crate) symbols: &'static [Part],
}

/// What the grammar says of a word: the tokens that it begins with, its ways, and what is built where it is empty.
#[derive(Clone, Copy)]
pub(crate) struct Entry {
    pub(crate) first: &'static [Terminal],
    pub(crate) rows: &'static [Row],
    pub(crate) empty: Option<Act>,
}

/// The word's entry in the table.
#[tactic(auto, unfolding(py_grammar::specs::Table::ways, py_grammar::specs::Table::empty, py_grammar::specs::Sets::first))]
pub(crate) fn entry_of(word: Word) -> Entry
    ensures { Describes word result }
{
    match word {
        Word::Statements => statements::STATEMENTS,
        Word::Statement => statements::STATEMENT,
        Word::IfTail => statements::IF_TAIL,
        Word::TryTail => statements::TRY_TAIL,
        Word::Handler => statements::HANDLER,
        Word::HandlersTail => statements::HANDLERS_TAIL,
        Word::Caught => statements::CAUGHT,
        Word::AsName => statements::AS_NAME,
        Word::Final => statements::FINAL,
        Word::FinalTail => statements::FINAL_TAIL,
        Word::Parameters => statements::PARAMETERS,
        Word::ParametersTail => statements::PARAMETERS_TAIL,
        Word::Base => statements::BASE,
        Word::Suite => statements::SUITE,
        Word::Simple => statements::SIMPLE,
        Word::SimpleTail => statements::SIMPLE_TAIL,
        Word::ReturnTail => statements::RETURN_TAIL,
        Word::RaiseTail => statements::RAISE_TAIL,
        Word::RaiseArguments => statements::RAISE_ARGUMENTS,
        Word::NamesTail => statements::NAMES_TAIL,
        Word::Targets => targets::TARGETS,
        Word::TargetsTail => targets::TARGETS_TAIL,
        Word::TargetItems => targets::TARGET_ITEMS,
        Word::TargetItemsTail => targets::TARGET_ITEMS_TAIL,
        Word::Target => targets::TARGET,
        Word::TargetTail => targets::TARGET_TAIL,
        Word::Place => targets::PLACE,
        Word::PlaceTail => targets::PLACE_TAIL,
        Word::Exprs => expressions::EXPRS,
        Word::ExprsTail => expressions::EXPRS_TAIL,
        Word::Items => expressions::ITEMS,
        Word::ItemsTail => expressions::ITEMS_TAIL,
        Word::Expr => expressions::EXPR,
        Word::ExprTail => expressions::EXPR_TAIL,
        Word::LambdaNames => expressions::LAMBDA_NAMES,
        Word::LambdaTail => expressions::LAMBDA_TAIL,
        Word::Either => expressions::EITHER,
        Word::EitherTail => expressions::EITHER_TAIL,
        Word::EitherMore => expressions::EITHER_MORE,
        Word::Both => expressions::BOTH,
        Word::BothTail => expressions::BOTH_TAIL,
        Word::BothMore => expressions::BOTH_MORE,
        Word::Inverse => expressions::INVERSE,
        Word::Compare => expressions::COMPARE,
        Word::CompareTail => expressions::COMPARE_TAIL,
        Word::CompareMore => expressions::COMPARE_MORE,
        Word::Link => expressions::LINK,
        Word::IsRight => expressions::IS_RIGHT,
        Word::Bits => operators::BITS,
        Word::BitsTail => operators::BITS_TAIL,
        Word::Differences => operators::DIFFERENCES,
        Word::DifferencesTail => operators::DIFFERENCES_TAIL,
        Word::Commons => operators::COMMONS,
        Word::CommonsTail => operators::COMMONS_TAIL,
        Word::Shifts => operators::SHIFTS,
        Word::ShiftsTail => operators::SHIFTS_TAIL,
        Word::Sums => operators::SUMS,
        Word::SumsTail => operators::SUMS_TAIL,
        Word::Products => operators::PRODUCTS,
        Word::ProductsTail => operators::PRODUCTS_TAIL,
        Word::Unary => operators::UNARY,
        Word::Power => operators::POWER,
        Word::PowerTail => operators::POWER_TAIL,
        Word::Postfix => atoms::POSTFIX,
        Word::PostfixTail => atoms::POSTFIX_TAIL,
        Word::Arguments => atoms::ARGUMENTS,
        Word::ArgumentsTail => atoms::ARGUMENTS_TAIL,
        Word::Atom => atoms::ATOM,
        Word::Other => atoms::OTHER,
        Word::Inside => atoms::INSIDE,
        Word::Pairs => atoms::PAIRS,
        Word::PairsTail => atoms::PAIRS_TAIL,
        Word::LineEnd => atoms::LINE_END,
    }
}
