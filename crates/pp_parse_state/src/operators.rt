//! The operators with two operands, and how tight they bind.

ghost use Rattle.std.specs.Prelude.{◌≡◌};
ghost use Rattle.pp_grammar.specs.Words.{binary_of, level};

use pp_tokens::Operator;
use pp_tree::BinaryOp;

/// The level of any infix expression.
pub const LOOSEST: u32 = 2;

/// The level of an operand with its prefix.
pub const TIGHTEST: u32 = 9;

/// The operation of an operator with two operands.
pub fn binary_of(operator: Operator) -> Option<BinaryOp>
    ensures { result ≡ binary_of operator }
{
    match operator {
        Operator::Plus => Some(BinaryOp::Add),
        Operator::Minus => Some(BinaryOp::Sub),
        Operator::Times => Some(BinaryOp::Mul),
        Operator::Over => Some(BinaryOp::Div),
        Operator::Percent => Some(BinaryOp::Rem),
        Operator::Equal => Some(BinaryOp::Equal),
        Operator::Differs => Some(BinaryOp::Differ),
        Operator::Less => Some(BinaryOp::Less),
        Operator::AtMost => Some(BinaryOp::AtMost),
        Operator::More => Some(BinaryOp::More),
        Operator::AtLeast => Some(BinaryOp::AtLeast),
        Operator::AndAlso => Some(BinaryOp::AndAlso),
        Operator::OrElse => Some(BinaryOp::OrElse),
        Operator::And => Some(BinaryOp::And),
        Operator::Or => Some(BinaryOp::Or),
        Operator::Xor => Some(BinaryOp::Xor),
        Operator::Shl => Some(BinaryOp::Shl),
        Operator::Shr => Some(BinaryOp::Shr),
        Operator::Ushr => Some(BinaryOp::Ushr),
        _ => None,
    }
}

/// How tight an operation binds: from 2, the weakest, to 8 (Scala Language Specification 2.13, 6.12.3).
pub fn level(op: BinaryOp) -> u32
    ensures { result ≡ level op }
{
    match op {
        BinaryOp::Or | BinaryOp::OrElse => 2,
        BinaryOp::Xor => 3,
        BinaryOp::And | BinaryOp::AndAlso => 4,
        BinaryOp::Equal | BinaryOp::Differ => 5,
        BinaryOp::Less | BinaryOp::AtMost | BinaryOp::More | BinaryOp::AtLeast => 6,
        BinaryOp::Shl | BinaryOp::Shr | BinaryOp::Ushr => 6,
        BinaryOp::Add | BinaryOp::Sub => 7,
        BinaryOp::Mul | BinaryOp::Div | BinaryOp::Rem => 8,
    }
}
