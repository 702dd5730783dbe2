ghost use Rattle.std.specs.Prelude.{◌≡◌, IfOk};

use crate::expression::Expression;
use crate::statement::Statement;
use crate::target::Target;
use rp_base::NoMemory;
use std::alloc::Global;

/// A node of a script's tree.
#[derive(Drop)]
pub enum Node {
    Expression(Expression),
    Target(Target),
    Statement(Statement),
}

impl Node {
    /// An equal node of its own.
    pub fn copy(&self, alloc: Global) -> Result<Node, NoMemory>
        ensures { IfOk result (λ n. n ≡ self.now) }
    {
        match self {
            Node::Expression(expression) => Ok(Node::Expression(expression.copy(alloc)?)),
            Node::Target(target) => Ok(Node::Target(target.copy(alloc)?)),
            Node::Statement(statement) => Ok(Node::Statement(statement.copy(alloc)?)),
        }
    }
}
