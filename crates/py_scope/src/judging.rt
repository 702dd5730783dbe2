ghost use Rattle.std.specs.Prelude.{◌≡◌, List, IfOk};
ghost use Rattle.py_mentions.specs.Worst.{worst_with};
ghost use Rattle.py_mentions.specs.Walks.{mentions_in};
ghost use Rattle.py_scope.specs.Finished.{finished_from, handler_names};
ghost use Rattle.py_scope.specs.Judging.{Judged};
ghost use Rattle.py_scope.specs.Rules.{broken_names};

use crate::ending::AcceptEnd;
use crate::facts::Facts;
use crate::scopes::handler_names;
use py_ast::{FunctionInfo, Program};
use py_mentions::{Mention, places};
use rp_base::{NoMemory, Refused, Text};
use sqlite_items::Items;
use std::alloc::Global;

/// What the mentions of a script settle.
#[derive(Drop)]
struct Settled {
    /// The worst of what is broken.
    worst: Option<Refused>,
    functions: Items<FunctionInfo>,
    handler_names: Items<Text>,
}

fn settle(
    alloc: Global,
    program: &Program,
    mentions: &[Mention],
    worst: Option<Refused>,
) -> Result<Settled, NoMemory>
    ensures worst { IfOk result (λ s. s.worst ≡ worst_with worst (broken_names mentions.now program.now.functions)) }
    ensures functions { IfOk result (λ s. s.functions ≡ finished_from mentions.now program.now.functions 0 program.now.functions) }
    ensures handlers { IfOk result (λ s. s.handler_names ≡ handler_names mentions.now) }
{
    let facts = Facts::of(alloc, mentions, program.functions.as_slice())?;
    Ok(Settled {
        worst: facts.judge_all(alloc, worst)?,
        functions: facts.finished(alloc)?,
        handler_names: handler_names(alloc, mentions)?.texts(alloc)?,
    })
}

/// The script with what its functions keep, or the first static rule that it breaks: that of the least line, and then of
/// the least number.
pub fn judge(alloc: Global, program: Program) -> Result<Program, AcceptEnd>
    ensures { Judged program result }
{
    let places = places(alloc, &program)?;
    let settled = settle(alloc, &program, places.mentions.as_slice(), places.worst)?;
    if let Some(refused) = settled.worst {
        return Err(AcceptEnd::Refused(refused));
    }
    let Program {
        nodes,
        lines,
        root,
        is_expression,
        ..
    } = program;
    let Settled {
        functions,
        handler_names,
        ..
    } = settled;
    Ok(Program {
        nodes,
        lines,
        root,
        functions,
        handler_names,
        is_expression,
    })
}
