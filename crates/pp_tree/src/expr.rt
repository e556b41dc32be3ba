//! Expressions.

use crate::{BinaryOp, Pattern, TypeText, UnaryOp};

/// An expression, and an offset: that of the operator in `Unary` and `Binary`, of the word in `If`, `Match`, `Val` and
/// `Assert`, of the field's name in `Field`, and else that of its first token.
#[cycle(expr)]
#[derive(Clone, Copy)]
pub struct Expr<'a> {
    pub at: u32,
    pub kind: ExprKind<'a>,
}

/// What an expression is. Parentheses and blocks make no expression of their own. A prefix `-` directly before a number
/// is part of `Int`. `Apply` has the written type arguments before the arguments. `Val` and `Assert` have what follows
/// them last.
#[cycle(expr)]
#[derive(Clone, Copy)]
pub enum ExprKind<'a> {
    Int(i32),
    Bool(bool),
    Name(&'a str),
    Apply(&'a str, &'a [TypeText<'a>], &'a [Expr<'a>]),
    Field(&'a Expr<'a>, &'a str),
    Unary(UnaryOp, &'a Expr<'a>),
    Binary(BinaryOp, &'a Expr<'a>, &'a Expr<'a>),
    If(&'a Expr<'a>, &'a Expr<'a>, &'a Expr<'a>),
    Match(&'a Expr<'a>, &'a [Case<'a>]),
    Val(&'a str, Option<TypeText<'a>>, &'a Expr<'a>, &'a Expr<'a>),
    Assert(&'a Expr<'a>, &'a Expr<'a>),
}

/// A case of a match.
#[cycle(expr)]
#[derive(Clone, Copy)]
pub struct Case<'a> {
    pub pattern: Pattern<'a>,
    pub guard: Option<Expr<'a>>,
    pub body: Expr<'a>,
}
