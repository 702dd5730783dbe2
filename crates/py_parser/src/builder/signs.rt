ghost use Rattle.std.specs.Prelude.{◌≡◌, IfOk};
ghost use Rattle.py_parser.specs.BuildingSigns.{beside, binary_sign, binary_signs, comparison_sign, comparison_signs, negate, unary_sign, unary_signs};

use crate::builder::Building;
use crate::parts::Sign;
use py_ast::Comparison;
use rp_base::{BinaryOp, CmpOp, NoMemory, UnaryOp};

impl Building<'_> {
    pub(super) fn binary_sign(&mut self) -> Result<(), NoMemory>
        ensures { IfOk result (λ _. self.new ≡ binary_sign self.old) }
    {
        let Some(op) = binary_op(self.word.as_str()) else {
            return self.stop();
        };
        self.signs.push(op)
    }

    pub(super) fn unary_sign(&mut self) -> Result<(), NoMemory>
        ensures { IfOk result (λ _. self.new ≡ unary_sign self.old) }
    {
        let Some(op) = unary_op(self.word.as_str()) else {
            return self.stop();
        };
        self.unary_signs.push(op)?;
        self.marks.push(self.line)
    }

    pub(super) fn comparison_sign(&mut self) -> Result<(), NoMemory>
        ensures { IfOk result (λ _. self.new ≡ comparison_sign self.old) }
    {
        let Some(comparison) = comparison(self.word.as_str()) else {
            return self.stop();
        };
        self.comparisons.push(Sign {
            comparison,
            line: self.line,
        })
    }

    /// The `not` of `is not`.
    pub(super) fn negate(&mut self) -> Result<(), NoMemory>
        ensures { IfOk result (λ _. self.new ≡ negate self.old.comparisons self.old) }
    {
        let Some(sign) = self.comparisons.pop() else {
            return self.stop();
        };
        self.comparisons.push(Sign {
            comparison: Comparison::IsNot,
            line: sign.line,
        })
    }
}

/// The operator of a binary operation or of an augmented assignment.
fn binary_op(word: &str) -> Option<BinaryOp>
    ensures { result ≡ beside word.now binary_signs }
{
    match word {
        "+" => Some(BinaryOp::Add),
        "-" => Some(BinaryOp::Sub),
        "*" => Some(BinaryOp::Mul),
        "/" => Some(BinaryOp::Div),
        "//" => Some(BinaryOp::FloorDiv),
        "%" => Some(BinaryOp::Mod),
        "**" => Some(BinaryOp::Pow),
        "<<" => Some(BinaryOp::Shl),
        ">>" => Some(BinaryOp::Shr),
        "&" => Some(BinaryOp::And),
        "|" => Some(BinaryOp::Or),
        "^" => Some(BinaryOp::Xor),
        "+=" => Some(BinaryOp::Add),
        "-=" => Some(BinaryOp::Sub),
        "*=" => Some(BinaryOp::Mul),
        "//=" => Some(BinaryOp::FloorDiv),
        "%=" => Some(BinaryOp::Mod),
        "**=" => Some(BinaryOp::Pow),
        "<<=" => Some(BinaryOp::Shl),
        ">>=" => Some(BinaryOp::Shr),
        "&=" => Some(BinaryOp::And),
        "|=" => Some(BinaryOp::Or),
        "^=" => Some(BinaryOp::Xor),
        _ => None,
    }
}

fn unary_op(word: &str) -> Option<UnaryOp>
    ensures { result ≡ beside word.now unary_signs }
{
    match word {
        "-" => Some(UnaryOp::Neg),
        "+" => Some(UnaryOp::Pos),
        "~" => Some(UnaryOp::Invert),
        _ => None,
    }
}

fn comparison(word: &str) -> Option<Comparison>
    ensures { result ≡ beside word.now comparison_signs }
{
    match word {
        "==" => Some(Comparison::Order(CmpOp::Eq)),
        "!=" => Some(Comparison::Order(CmpOp::Ne)),
        "<" => Some(Comparison::Order(CmpOp::Lt)),
        "<=" => Some(Comparison::Order(CmpOp::Le)),
        ">" => Some(Comparison::Order(CmpOp::Gt)),
        ">=" => Some(Comparison::Order(CmpOp::Ge)),
        "in" => Some(Comparison::In),
        "not" => Some(Comparison::NotIn),
        "is" => Some(Comparison::Is),
        _ => None,
    }
}
