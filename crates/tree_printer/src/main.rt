//! The program `tree_printer NAME`: reads a script from its input and writes an antt file with the script's tree, a
//! definition `NAME` of type Program, for worked examples. `tree_printer NAME expression` reads one expression.
#![tactic(auto)]

mod files;
mod nodes;
mod statements;
mod terms;

use files::push_file;
use py_scope::{AcceptEnd, accept, accept_expr};
use std::io;
use std::io::{Read, Write};
use std::process::ExitCode;

fn main(rt: HostRuntime) -> io::Result<ExitCode> {
    let words: Vec<String> = std::env::args(&rt)?.collect(rt.alloc())?;
    let (name, is_expression) = match words.as_slice() {
        [_, name] => (name.as_str(), false),
        [_, name, word] if word.as_str() == "expression" => (name.as_str(), true),
        _ => {
            eprintln!(rt; "tree_printer NAME [expression] < SCRIPT")?;
            return Ok(ExitCode::from(2));
        }
    };
    let mut text = Vec::new(rt.alloc());
    rt.stdin().read_to_end(&mut text)?;
    let program = if is_expression {
        accept_expr(rt.alloc(), &text)
    } else {
        accept(rt.alloc(), &text)
    };
    match program {
        Ok(program) => {
            let mut out = String::new(rt.alloc());
            push_file(rt.alloc(), &mut out, name, &text, &program)?;
            rt.stdout().write_all(out.as_bytes())?;
            Ok(ExitCode::from(0))
        }
        Err(AcceptEnd::Refused(refused)) => {
            let (line, rule) = (refused.line, refused.rule.text());
            eprintln!(rt; "line {line} rule {rule}")?;
            Ok(ExitCode::from(3))
        }
        Err(AcceptEnd::NoMemory) => Ok(ExitCode::from(11)),
    }
}
