//! The operators of expressions.

/// An operator with one operand: `-`, `!` and `~`.
#[derive(Clone, Copy, PartialEq, Eq, Debug)]
pub enum UnaryOp {
    Neg,
    Not,
    Flip,
}

/// An operator with two operands: `+ - * / % == != < <= > >= && || & | ^ << >> >>>`.
#[derive(Clone, Copy, PartialEq, Eq, Debug)]
pub enum BinaryOp {
    Add,
    Sub,
    Mul,
    Div,
    Rem,
    Equal,
    Differ,
    Less,
    AtMost,
    More,
    AtLeast,
    AndAlso,
    OrElse,
    And,
    Or,
    Xor,
    Shl,
    Shr,
    Ushr,
}
