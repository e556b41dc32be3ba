//! Expressions, patterns and functions.

use crate::{CheckId, CtorId, FunctionId, Place, Sort};
use pp_list::{Boxed, Items};
use pp_operators::{BinaryOp, UnaryOp};
use pp_text::Name;

/// A pattern. `Bind` adds one variable, the value that its pattern is matched with: the outer before the inner, from
/// left to right.
#[derive(Drop)]
pub enum Pattern {
    Any,
    Bind(Boxed<Pattern>),
    Int(i32),
    Bool(bool),
    Ctor(CtorId, Items<Pattern>),
}

/// A list of patterns.
pub type Patterns = Items<Pattern>;

/// An expression. A variable is its place in the list of values in scope, parameters first. `Field` names a field by
/// its place. A site that can fail has the number of its check.
#[cycle(expr)]
#[derive(Drop)]
pub enum Expr {
    Int(i32),
    Bool(bool),
    Var(u32),
    Unary(UnaryOp, Boxed<Expr>),
    Binary(BinaryOp, Boxed<Expr>, Boxed<Expr>, Option<CheckId>),
    Construct(CtorId, Items<Expr>),
    Field(Boxed<Expr>, u32),
    If(Boxed<Expr>, Boxed<Expr>, Boxed<Expr>),
    Match(Boxed<Expr>, Items<Case>, Option<CheckId>),
    Val(Boxed<Expr>, Boxed<Expr>),
    Assert(CheckId, Boxed<Expr>, Boxed<Expr>),
    Call {
        callee: FunctionId,
        args: Items<Expr>,
        pre: Option<CheckId>,
        measure: Option<CheckId>,
    },
}

/// A case of a match: it is taken where its pattern fits and its guard, if one is written, is true.
#[cycle(expr)]
#[derive(Drop)]
pub struct Case {
    pub pattern: Pattern,
    pub guard: Option<Expr>,
    pub body: Expr,
}

/// A list of expressions.
pub type Exprs = Items<Expr>;

/// A list of cases.
pub type Cases = Items<Case>;

/// A parameter, with its name and its sort.
#[derive(Drop)]
pub struct Param {
    pub name: Name,
    pub sort: Sort,
}

/// A list of parameters.
pub type Params = Items<Param>;

/// A function with its contract. An absent precondition or postcondition is true; the empty measure is none. In a
/// postcondition, which comes with its check, the result is the variable after the parameters.
#[derive(Drop)]
pub struct Function {
    pub name: Name,
    pub place: Place,
    pub params: Params,
    pub result: Sort,
    pub pre: Option<Expr>,
    pub measure: Exprs,
    pub body: Expr,
    pub post: Option<(CheckId, Expr)>,
}

/// A list of functions.
pub type Functions = Items<Function>;
