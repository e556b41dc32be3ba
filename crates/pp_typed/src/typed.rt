//! Typed declarations.

use crate::{GenericSort, GenericSorts, TypedExpr, TypedExprs};
use pp_list::Items;
use pp_text::Name;

/// A root, with the number of its type parameters.
#[derive(Drop)]
pub struct TypedRoot {
    pub name: Name,
    pub type_params: u32,
}

/// A constructor of a root. Its fields' sorts speak of the type parameters of the root. `object` tells a case object.
#[derive(Drop)]
pub struct TypedCtor {
    pub name: Name,
    pub root: u32,
    pub fields: GenericSorts,
    pub object: bool,
}

/// A parameter.
#[derive(Drop)]
pub struct TypedParam {
    pub name: Name,
    pub of: GenericSort,
}

/// A postcondition: the offset of its word, and its claim, in which the result is the local after the parameters.
#[derive(Drop)]
pub struct TypedPost {
    pub at: u32,
    pub claim: TypedExpr,
}

/// A function: its source from 1, the offset of its name, the number of its type parameters, one expression for each
/// `require`, and the components of its measure.
#[derive(Drop)]
pub struct TypedDef {
    pub name: Name,
    pub source: u32,
    pub at: u32,
    pub type_params: u32,
    pub params: TypedParams,
    pub result: GenericSort,
    pub pre: TypedExprs,
    pub measure: TypedExprs,
    pub body: TypedExpr,
    pub post: Option<TypedPost>,
}

/// Lists of declarations and parameters.
pub type TypedRoots = Items<TypedRoot>;

pub type TypedCtors = Items<TypedCtor>;

pub type TypedDefs = Items<TypedDef>;

pub type TypedParams = Items<TypedParam>;

/// The declarations of all units, in program order.
#[derive(Drop)]
pub struct Typed {
    pub roots: TypedRoots,
    pub ctors: TypedCtors,
    pub defs: TypedDefs,
}
