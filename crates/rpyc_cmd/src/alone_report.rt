ghost use Rattle.std.specs.Prelude.{◌≡◌, ◌++◌, IfOk, OnOk, codes, map, string_bytes};
ghost use Rattle.language_rules.specs.Exceptions.{exception_repr};
ghost use Rattle.py_plain.specs.Printing.{repr_of};
ghost use Rattle.py_strs.specs.Joining.{followed, joined};
ghost use Rattle.rpyc_cmd.specs.Report.{line, run_text, alone_end_text};
ghost use Rattle.rpyc_cmd.specs.Statuses.{status_of};

use crate::report::push_section;
use crate::status::Status;
use nested_serve::{AloneEnd, AloneRun};
use py_plain::plain_repr;
use rp_base::{NoMemory, Plain, Raised, Text};
use std::alloc::Global;

/// The report of a script that was run alone.
pub fn run_report(alloc: Global, run: &AloneRun) -> Result<Text, NoMemory>
    ensures { IfOk result (λ text. text ≡ run_text run.now.printed run.now.end run.now.units) }
{
    let mut text = String::new(alloc);
    push_section(&mut text, "A", run.printed.as_str())?;
    push_end(&mut text, &run.end)?;
    let units = run.units;
    write!(text, "units {units}\n")?;
    Ok(Text::from_string(text))
}

/// The status of a run that ended so.
pub fn run_status(end: &AloneEnd) -> Status
    ensures { result ≡ status_of end.now }
{
    match end {
        AloneEnd::Done => Status::Done,
        AloneEnd::Raised(_) => Status::Raised,
        AloneEnd::OutOfFuel => Status::OutOfFuel,
        AloneEnd::Beyond(_) => Status::Beyond,
    }
}

fn push_end(text: &mut String, end: &AloneEnd) -> Result<(), NoMemory>
    ensures { OnOk result (string_bytes text.new ≡ string_bytes text.old ++ line (codes "end " ++ alone_end_text end.now)) }
{
    match end {
        AloneEnd::Done => Ok(text.push_str("end done\n")?),
        AloneEnd::Raised(raised) => push_raised(text, raised),
        AloneEnd::OutOfFuel => Ok(text.push_str("end fuel\n")?),
        AloneEnd::Beyond(beyond) => {
            let kind = beyond.text();
            Ok(write!(text, "end beyond {kind}\n")?)
        }
    }
}

fn push_raised(text: &mut String, raised: &Raised) -> Result<(), NoMemory>
    ensures { OnOk result (string_bytes text.new ≡ string_bytes text.old ++ line (codes "end raised A " ++ exception_repr raised.now.kind raised.now.args)) }
{
    let name = raised.kind.text();
    write!(text, "end raised A {name}(")?;
    push_arguments(text, raised.args.as_slice())?;
    text.push_str(")\n")?;
    Ok(())
}

fn push_arguments(text: &mut String, arguments: &[Plain]) -> Result<(), NoMemory>
    ensures { OnOk result (string_bytes text.new ≡ string_bytes text.old ++ joined (codes ", ") (map repr_of arguments.now)) }
{
    match arguments {
        [] => Ok(()),
        [first, others @ ..] => {
            push_repr(text, first)?;
            push_others(text, others)
        }
    }
}

fn push_others(text: &mut String, arguments: &[Plain]) -> Result<(), NoMemory>
    ensures { OnOk result (string_bytes text.new ≡ string_bytes text.old ++ followed (codes ", ") (map repr_of arguments.now)) }
{
    for argument in arguments {
        push_other(text, argument)?;
    }
    Ok(())
}

fn push_other(text: &mut String, argument: &Plain) -> Result<(), NoMemory>
    ensures { OnOk result (string_bytes text.new ≡ string_bytes text.old ++ (codes ", " ++ repr_of argument.now)) }
{
    text.push_str(", ")?;
    push_repr(text, argument)
}

/// Appends the repr of a value. No string has more than `u64::MAX` bytes, so that an error is want of memory.
fn push_repr(text: &mut String, value: &Plain) -> Result<(), NoMemory>
    ensures { OnOk result (string_bytes text.new ≡ string_bytes text.old ++ repr_of value.now) }
{
    match plain_repr(value, u64::MAX, text) {
        Ok(()) => Ok(()),
        Err(_) => Err(NoMemory),
    }
}
