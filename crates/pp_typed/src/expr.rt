//! Typed expressions.

use crate::{GenericSort, GenericSorts, TypedPattern};
use pp_list::{Boxed, Items};
use pp_tree::{BinaryOp, UnaryOp};

/// An expression: its source from 1, the offset that its tree has, and its sort.
#[cycle(typed_expr)]
#[derive(Drop)]
pub struct TypedExpr {
    pub source: u32,
    pub at: u32,
    pub of: GenericSort,
    pub kind: TypedKind,
}

/// What an expression is. A local is its place in the list of values in scope, parameters first. `Call` names a
/// function and `Construct` a constructor by their places, each with all its type arguments. `Field` names a field by
/// its place.
#[cycle(typed_expr)]
#[derive(Drop)]
pub enum TypedKind {
    Int(i32),
    Bool(bool),
    Local(u32),
    Call(u32, GenericSorts, Items<TypedExpr>),
    Construct(u32, GenericSorts, Items<TypedExpr>),
    Field(Boxed<TypedExpr>, u32),
    Unary(UnaryOp, Boxed<TypedExpr>),
    Binary(BinaryOp, Boxed<TypedExpr>, Boxed<TypedExpr>),
    If(Boxed<TypedExpr>, Boxed<TypedExpr>, Boxed<TypedExpr>),
    Match(Boxed<TypedExpr>, Items<TypedCase>),
    Val(Boxed<TypedExpr>, Boxed<TypedExpr>),
    Assert(Boxed<TypedExpr>, Boxed<TypedExpr>),
}

/// A case of a match.
#[cycle(typed_expr)]
#[derive(Drop)]
pub struct TypedCase {
    pub pattern: TypedPattern,
    pub guard: Option<TypedExpr>,
    pub body: TypedExpr,
}

/// A list of expressions.
pub type TypedExprs = Items<TypedExpr>;

/// A list of cases.
pub type TypedCases = Items<TypedCase>;
