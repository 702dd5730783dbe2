ghost use Rattle.std.specs.Prelude.{◌≡◌, ◌<◌, length, slice_get, Some, IfOk};

use crate::copying::{copy_names, copy_numbers, copy_texts};
use crate::name::Name;
use crate::node::Node;
use rp_base::{NoMemory, Text};
use sqlite_items::Items;
use std::alloc::Global;

/// A function of a script: a `def` or a `lambda`.
#[derive(Drop)]
pub struct FunctionInfo {
    /// The name of a `def`, or `<lambda>`.
    pub name: Text,
    pub parameters: Items<Name>,
    /// The names that are its own: its parameters in order, then the other names that it binds, in the order in which
    /// the text first binds them.
    pub locals: Items<Text>,
    /// The names that it takes from functions around it, for itself or for functions inside it.
    pub free: Items<Text>,
    /// Whether a function stands inside it.
    pub has_inner: bool,
    /// The function around it.
    pub parent: Option<u32>,
    /// The number of its suite, or of a lambda's expression.
    pub body: u32,
}

impl FunctionInfo {
    /// An equal one of its own.
    pub fn copy(&self, alloc: Global) -> Result<FunctionInfo, NoMemory>
        ensures { IfOk result (λ f. f ≡ self.now) }
    {
        Ok(FunctionInfo {
            name: self.name.copy(alloc)?,
            parameters: copy_names(&self.parameters, alloc)?,
            locals: copy_texts(&self.locals, alloc)?,
            free: copy_texts(&self.free, alloc)?,
            has_inner: self.has_inner,
            parent: self.parent,
            body: self.body,
        })
    }
}

/// A script's tree. A node's parts have smaller numbers than the node and come in written order, so the root is the last
/// node. Functions are numbered in the order in which they begin.
#[derive(Drop)]
pub struct Program {
    pub nodes: Items<Node>,
    /// The line of each node, counted from 1: that of its first token, and of an attribute that of its name.
    pub lines: Items<u32>,
    /// The suite of the whole text, or an expression.
    pub root: u32,
    pub functions: Items<FunctionInfo>,
    /// The names after `as`, each once, in the order in which the text has them.
    pub handler_names: Items<Text>,
    pub is_expression: bool,
}

impl Program {
    /// The node of this number.
    pub fn node(&self, number: u32) -> &Node
        requires { number < length self.now.nodes }
        ensures { slice_get self.now.nodes number ≡ Some result.now }
    {
        &self.nodes.as_slice()[number as usize]
    }

    /// An equal program of its own.
    pub fn copy(&self, alloc: Global) -> Result<Program, NoMemory>
        ensures { IfOk result (λ p. p ≡ self.now) }
    {
        Ok(Program {
            nodes: copy_nodes(&self.nodes, alloc)?,
            lines: copy_numbers(&self.lines, alloc)?,
            root: self.root,
            functions: copy_functions(&self.functions, alloc)?,
            handler_names: copy_texts(&self.handler_names, alloc)?,
            is_expression: self.is_expression,
        })
    }
}

fn copy_nodes(nodes: &Items<Node>, alloc: Global) -> Result<Items<Node>, NoMemory>
    ensures { IfOk result (λ all. all ≡ nodes.now) }
{
    let mut all = Items::new(alloc);
    for node in nodes.as_slice() {
        all.push(node.copy(alloc)?)?;
    }
    Ok(all)
}

fn copy_functions(
    functions: &Items<FunctionInfo>,
    alloc: Global,
) -> Result<Items<FunctionInfo>, NoMemory>
    ensures { IfOk result (λ all. all ≡ functions.now) }
{
    let mut all = Items::new(alloc);
    for function in functions.as_slice() {
        all.push(function.copy(alloc)?)?;
    }
    Ok(all)
}
