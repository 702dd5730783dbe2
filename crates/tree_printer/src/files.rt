use crate::nodes::push_node;
use crate::terms::{
    push_bool, push_names, push_number_or_none, push_numbers, push_text, push_texts,
};
use py_ast::{FunctionInfo, Program};
use std::alloc::{AllocError, Global};

/// The modules of variants that a tree may name, by their alias.
const MODULES: [(&str, &str); 10] = [
    (
        "builtin.",
        "use Rattle.py_ast.specs.declared.builtin.Builtin.TheVariants as builtin\n",
    ),
    (
        "comparison.",
        "use Rattle.py_ast.specs.declared.expression.Comparison.TheVariants as comparison\n",
    ),
    (
        "expression.",
        "use Rattle.py_ast.specs.declared.expression.Expression.TheVariants as expression\n",
    ),
    (
        "node.",
        "use Rattle.py_ast.specs.declared.node.Node.TheVariants as node\n",
    ),
    (
        "statement.",
        "use Rattle.py_ast.specs.declared.statement.Statement.TheVariants as statement\n",
    ),
    (
        "target.",
        "use Rattle.py_ast.specs.declared.target.Target.TheVariants as target\n",
    ),
    (
        "op.",
        "use Rattle.rp_base.specs.declared.operators.BinaryOp.TheVariants as op\n",
    ),
    (
        "cmp.",
        "use Rattle.rp_base.specs.declared.operators.CmpOp.TheVariants as cmp\n",
    ),
    (
        "unary.",
        "use Rattle.rp_base.specs.declared.operators.UnaryOp.TheVariants as unary\n",
    ),
    (
        "plain.",
        "use Rattle.rp_base.specs.declared.plain.Plain.TheVariants as plain\n",
    ),
];

/// The words of std that a tree may name.
const WORDS: [(&str, &str); 7] = [
    ("(codes ", ", codes"),
    ("pos ", ", pos"),
    ("negsuc ", ", negsuc"),
    ("Some ", ", Some"),
    ("None", ", None"),
    ("true", ", true"),
    ("false", ", false"),
];

/// The script's text as a comment.
fn push_comment(out: &mut String, text: &str) -> Result<(), AllocError> {
    for line in text.lines() {
        if line.is_empty() {
            out.push_str("--\n")?;
        } else {
            write!(out, "-- {line}\n")?;
        }
    }
    Ok(())
}

fn push_function(out: &mut String, function: &FunctionInfo) -> Result<(), AllocError> {
    out.push_str("record { name = ")?;
    push_text(out, function.name.as_str())?;
    out.push_str("; parameters = ")?;
    push_names(out, function.parameters.as_slice())?;
    out.push_str("; locals = ")?;
    push_texts(out, function.locals.as_slice())?;
    out.push_str("; free = ")?;
    push_texts(out, function.free.as_slice())?;
    out.push_str("; has_inner = ")?;
    push_bool(out, function.has_inner)?;
    out.push_str("; parent = ")?;
    push_number_or_none(out, function.parent)?;
    let body = function.body;
    write!(out, "; body = {body} }}")
}

fn push_functions(out: &mut String, functions: &[FunctionInfo]) -> Result<(), AllocError> {
    if functions.is_empty() {
        return out.push_str(" []");
    }
    for function in functions {
        out.push_str("\n      ")?;
        push_function(out, function)?;
        out.push_str(" ∷")?;
    }
    out.push_str("\n      []")
}

/// The tree, a record with one node a line.
fn push_program(out: &mut String, program: &Program) -> Result<(), AllocError> {
    out.push_str("record {\n  nodes =\n")?;
    for node in program.nodes.as_slice() {
        out.push_str("      ")?;
        push_node(out, node)?;
        out.push_str(" ∷\n")?;
    }
    out.push_str("      [];\n  lines = ")?;
    push_numbers(out, program.lines.as_slice())?;
    let root = program.root;
    write!(out, ";\n  root = {root};\n  functions =")?;
    push_functions(out, program.functions.as_slice())?;
    out.push_str(";\n  handler_names = ")?;
    push_texts(out, program.handler_names.as_slice())?;
    out.push_str(";\n  is_expression = ")?;
    push_bool(out, program.is_expression)?;
    out.push_str(";\n}\n")
}

/// A whole file: what it uses, the script's text as a comment, and the definition of its tree.
pub fn push_file(
    alloc: Global,
    out: &mut String,
    name: &str,
    text: &[u8],
    program: &Program,
) -> Result<(), AllocError> {
    let mut tree = String::new(alloc);
    push_program(&mut tree, program)?;
    write!(
        out,
        "-- The tree of a script, printed by `tree_printer {name}`.\n"
    )?;
    out.push_str("use Rattle.std.specs.Prelude.{[], ◌∷◌")?;
    for (word, import) in WORDS {
        if tree.as_str().contains(word) {
            out.push_str(import)?;
        }
    }
    out.push_str("}\nuse Rattle.py_ast.specs.declared.program.Program.{Program}\n")?;
    for (word, import) in MODULES {
        if tree.as_str().contains(word) {
            out.push_str(import)?;
        }
    }
    out.push_str("\n")?;
    if let Ok(text) = str::from_utf8(text) {
        push_comment(out, text)?;
    }
    write!(out, "abbrev pub {name} : Program\n{name} = ")?;
    out.push_str(tree.as_str())
}
