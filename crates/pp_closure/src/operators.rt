//! Operators by themselves: which are one, and which may take their operands turned round.

ghost use Rattle.std.specs.Prelude.{◌≡◌, true};
ghost use Rattle.pp_closure.specs.Steps as looked;

use pp_prog::{BinaryOp, UnaryOp};

/// The number of an operator with two operands among those.
pub(crate) fn number_of(op: BinaryOp) -> u32 {
    match op {
        BinaryOp::Add => 0,
        BinaryOp::Sub => 1,
        BinaryOp::Mul => 2,
        BinaryOp::Div => 3,
        BinaryOp::Rem => 4,
        BinaryOp::Equal => 5,
        BinaryOp::Differ => 6,
        BinaryOp::Less => 7,
        BinaryOp::AtMost => 8,
        BinaryOp::More => 9,
        BinaryOp::AtLeast => 10,
        BinaryOp::AndAlso => 11,
        BinaryOp::OrElse => 12,
        BinaryOp::And => 13,
        BinaryOp::Or => 14,
        BinaryOp::Xor => 15,
        BinaryOp::Shl => 16,
        BinaryOp::Shr => 17,
        BinaryOp::Ushr => 18,
    }
}

/// The number of an operator with one operand among those.
pub(crate) fn unary_number(op: UnaryOp) -> u32 {
    match op {
        UnaryOp::Neg => 0,
        UnaryOp::Not => 1,
        UnaryOp::Flip => 2,
    }
}

/// Whether the two operators are one.
pub(crate) fn is_one(op: BinaryOp, other: BinaryOp) -> bool
    ensures { result ≡ true → op ≡ other }
{
    op == other
}

/// Whether the two operators with one operand are one.
pub(crate) fn is_one_unary(op: UnaryOp, other: UnaryOp) -> bool
    ensures { result ≡ true → op ≡ other }
{
    op == other
}

/// Whether the operator makes the same of two operands that are turned round.
pub(crate) fn commutes(op: BinaryOp) -> bool
    ensures { result ≡ looked.commutes op }
{
    match op {
        BinaryOp::Add | BinaryOp::Mul => true,
        BinaryOp::Equal | BinaryOp::Differ => true,
        BinaryOp::And | BinaryOp::Or | BinaryOp::Xor => true,
        _ => false,
    }
}
