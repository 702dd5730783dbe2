ghost use Rattle.std.specs.Prelude.{◌≡◌, ◌++◌, ◌∷◌, [], None, IfOk, filter, map, reverse};
ghost use Rattle.py_mentions.specs.Members.{Knows};
ghost use Rattle.py_mentions.specs.Mentions.{mentions_at};
ghost use Rattle.py_mentions.specs.Parts.{part};
ghost use Rattle.py_mentions.specs.Rules.{broken_at};
ghost use Rattle.py_mentions.specs.Tasks.{constructs_after, leaves, task_finds, tasks_after};
ghost use Rattle.py_mentions.specs.Walks.{broken_in, mentions_in, smaller, smaller_parts, within};
ghost use Rattle.py_mentions.specs.Worst.{worst, worst_more, worst_with};

use crate::breaking::worst_at;
use crate::members::Members;
use crate::mention::{Mention, Places};
use crate::mentioning::put_mentions;
use crate::parts::put_parts;
use crate::place::{Construct, Part, Role, Task};
use py_ast::Program;
use rp_base::{NoMemory, Refused};
use sqlite_items::Items;
use std::alloc::Global;

/// A walk under way: what it found so far, the constructs that are open from the outermost in, and the tasks that are left,
/// the next one last.
#[derive(Drop)]
struct Walk {
    mentions: Items<Mention>,
    worst: Option<Refused>,
    constructs: Vec<Construct>,
    tasks: Vec<Task>,
    /// The parts of one node, and empty between tasks.
    parts: Vec<Part>,
}

/// The mentions of names in a script, and the worst of the places that break a rule. The time is linear in the tree, but
/// for the constructs that are open at a place. The stack does not grow with the tree.
pub fn places(alloc: Global, program: &Program) -> Result<Places, NoMemory>
    ensures mentions { IfOk result (λ found. found.mentions ≡ mentions_in program.now) }
    ensures worst { IfOk result (λ found. found.worst ≡ worst (broken_in program.now)) }
{
    let members = Members::of(alloc, program)?;
    let mut walk = begin(alloc, program)?;
    'tasks: while let Some(task) = walk.tasks.pop() {
        step(alloc, &mut walk, program, &members, task)?;
    }
    Ok(Places {
        mentions: walk.mentions,
        worst: walk.worst,
    })
}

/// The walk before its first task.
fn begin(alloc: Global, program: &Program) -> Result<Walk, NoMemory>
    ensures mentions { IfOk result (λ walk. walk.mentions ≡ []) }
    ensures worst { IfOk result (λ walk. walk.worst ≡ None) }
    ensures constructs { IfOk result (λ walk. walk.constructs.items ≡ []) }
    ensures tasks { IfOk result (λ walk. walk.tasks.items ≡ Task.Visit (part Role.Whole program.now.root) ∷ []) }
{
    let mut tasks = Vec::new(alloc);
    tasks.push(Task::Visit(Part {
        number: program.root,
        role: Role::Whole,
        around: None,
    }))?;
    Ok(Walk {
        mentions: Items::new(alloc),
        worst: None,
        constructs: Vec::new(alloc),
        tasks,
        parts: Vec::new(alloc),
    })
}

/// Does one task, which was taken from the walk.
fn step<'a>(
    alloc: Global,
    walk: &mut Walk,
    program: &'a Program,
    members: &Members<'a>,
    task: Task,
) -> Result<(), NoMemory>
    requires { Knows program.now members.now.set }
    ensures mentions { IfOk result (λ _. walk.new.mentions ≡ walk.old.mentions ++ task_finds (mentions_at program.now) walk.old.constructs.items task) }
    ensures worst { IfOk result (λ _. walk.new.worst ≡ worst_with walk.old.worst (task_finds (broken_at program.now) walk.old.constructs.items task)) }
    ensures constructs { IfOk result (λ _. walk.new.constructs.items ≡ constructs_after walk.old.constructs.items task) }
    ensures tasks { IfOk result (λ _. reverse walk.new.tasks.items ≡ tasks_after program.now task ++ reverse walk.old.tasks.items) }
{
    match task {
        Task::Leave => {
            let _left = walk.constructs.pop();
            Ok(())
        }
        Task::Visit(part) => visit(alloc, walk, program, members, part),
    }
}

fn visit<'a>(
    alloc: Global,
    walk: &mut Walk,
    program: &'a Program,
    members: &Members<'a>,
    part: Part,
) -> Result<(), NoMemory>
    requires { Knows program.now members.now.set }
    ensures mentions { IfOk result (λ _. walk.new.mentions ≡ walk.old.mentions ++ mentions_at program.now (within walk.old.constructs.items part.around) part.role part.number) }
    ensures worst { IfOk result (λ _. walk.new.worst ≡ worst_with walk.old.worst (broken_at program.now (within walk.old.constructs.items part.around) part.role part.number)) }
    ensures constructs { IfOk result (λ _. walk.new.constructs.items ≡ within walk.old.constructs.items part.around) }
    ensures tasks { IfOk result (λ _. reverse walk.new.tasks.items ≡ (map Task.Visit (smaller_parts program.now part.role part.number) ++ leaves part.around) ++ reverse walk.old.tasks.items) }
{
    enter(&mut walk.constructs, &mut walk.tasks, part.around)?;
    let constructs = walk.constructs.as_slice();
    put_mentions(
        alloc,
        &mut walk.mentions,
        program,
        constructs,
        part.role,
        part.number,
    )?;
    walk.worst = worst_at(
        walk.worst,
        program,
        members,
        constructs,
        part.role,
        part.number,
    );
    walk.parts.clear();
    put_parts(&mut walk.parts, program, part.role, part.number)?;
    put_off(&mut walk.tasks, &mut walk.parts, part.number)
}

/// Opens the construct that stands around a part.
fn enter(
    constructs: &mut Vec<Construct>,
    tasks: &mut Vec<Task>,
    around: Option<Construct>,
) -> Result<(), NoMemory>
    ensures constructs { IfOk result (λ _. constructs.new.items ≡ within constructs.old.items around) }
    ensures tasks { IfOk result (λ _. reverse tasks.new.items ≡ leaves around ++ reverse tasks.old.items) }
{
    match around {
        Some(construct) => {
            constructs.push(construct)?;
            tasks.push(Task::Leave)?;
            Ok(())
        }
        None => Ok(()),
    }
}

/// Makes tasks of the parts of the node of this number, the first of them the next task.
fn put_off(tasks: &mut Vec<Task>, parts: &mut Vec<Part>, number: u32) -> Result<(), NoMemory>
    ensures { IfOk result (λ _. reverse tasks.new.items ≡ map Task.Visit (filter (smaller number) parts.old.items) ++ reverse tasks.old.items) }
{
    'parts: while let Some(part) = parts.pop() {
        if part.number < number {
            tasks.push(Task::Visit(part))?;
        }
    }
    Ok(())
}
