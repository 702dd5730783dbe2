ghost use Rattle.std.specs.Prelude.{◌≡◌, ◌++◌, IfOk, OnOk, codes, string_bytes};
ghost use Rattle.rpyc_cmd.specs.Report.{line, ends_line, section, units_text, tables_text, report, words_line, script_line, not_there_line, read_fault_line};

use pair_run::PairEnd;
use rp_base::{NoMemory, Rule, Text};
use std::alloc::{AllocError, Global};

/// The report of a pair.
pub fn pair_report(alloc: Global, e: &PairEnd) -> Result<Text, NoMemory>
    ensures { IfOk result (λ text. text ≡ report e.now.end (string_bytes e.now.out_b) (string_bytes e.now.out_a) e.now.units e.now.tables) }
{
    let mut text = String::new(alloc);
    push_section(&mut text, "B", e.out_b.as_str())?;
    push_section(&mut text, "A", e.out_a.as_str())?;
    let end = e.end.text();
    write!(text, "end {end}\n")?;
    push_units(&mut text, e.units)?;
    push_tables(&mut text, e.tables)?;
    Ok(Text::from_string(text))
}

pub(crate) fn push_section(text: &mut String, side: &str, printed: &str) -> Result<(), AllocError>
    ensures { OnOk result (string_bytes text.new ≡ string_bytes text.old ++ section side.now printed.now) }
{
    let count = printed.len();
    write!(text, "{side} {count}\n")?;
    text.push_str(printed)?;
    if !is_ended(printed.as_bytes()) {
        text.push_str("\n")?;
    }
    Ok(())
}

fn is_ended(printed: &[u8]) -> bool
    ensures { result ≡ ends_line printed.now }
{
    match printed {
        [] => true,
        [.., last] => *last == b'\n',
    }
}

fn push_units(text: &mut String, units: Option<u128>) -> Result<(), AllocError>
    ensures { OnOk result (string_bytes text.new ≡ string_bytes text.old ++ line (codes "units " ++ units_text units)) }
{
    match units {
        Some(n) => write!(text, "units {n}\n"),
        None => text.push_str("units -\n"),
    }
}

fn push_tables(text: &mut String, tables: Option<(u64, u64)>) -> Result<(), AllocError>
    ensures { OnOk result (string_bytes text.new ≡ string_bytes text.old ++ line (codes "tables " ++ tables_text tables)) }
{
    match tables {
        Some((a, b)) => write!(text, "tables A {a} B {b}\n"),
        None => text.push_str("tables -\n"),
    }
}

/// The line of a refusal of the command line: the index of the word that it stops at.
pub fn words_text(alloc: Global, at: usize) -> Result<Text, NoMemory>
    ensures { IfOk result (λ text. text ≡ words_line at) }
{
    Ok(Text::from_string(format!(in alloc; "rpyc: words at {at}\n")?))
}

/// The line of a refusal of a script: the file's name, the line, counted from 1, and the rule.
pub fn script_text(alloc: Global, name: &str, line: usize, rule: Rule) -> Result<Text, NoMemory>
    ensures { IfOk result (λ text. text ≡ script_line name.now line rule) }
{
    let code = rule.text();
    Ok(Text::from_string(format!(in alloc; "rpyc: {name} line {line} rule {code}\n")?))
}

/// The line of a file that is not there.
pub fn not_there_text(alloc: Global, name: &str) -> Result<Text, NoMemory>
    ensures { IfOk result (λ text. text ≡ not_there_line name.now) }
{
    Ok(Text::from_string(format!(in alloc; "rpyc: {name} not there\n")?))
}

/// The line of a file that could not be read.
pub fn read_fault_text(alloc: Global, name: &str) -> Result<Text, NoMemory>
    ensures { IfOk result (λ text. text ≡ read_fault_line name.now) }
{
    Ok(Text::from_string(format!(in alloc; "rpyc: {name} read fault\n")?))
}
