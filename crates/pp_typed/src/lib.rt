//! Typed units: declarations, expressions and patterns with their sorts, names resolved to numbers.
//!
//! All units' declarations stand in one list of roots, one of constructors and one of functions, in program order, and
//! are named by their places there. A typed unit owns all that it holds, so the arenas of its trees may be reset.
//!
//! `specs/Equal` is when two sorts are the same, `specs/Operators` which sorts operators take and give, `specs/Sorted`
//! which expressions are well sorted, and `specs/Parts` joins what the parts of an expression have.
#![tactic(auto)]

mod declared;
mod expr;
mod pattern;
mod sort;
mod typed;

pub use declared::{Declared, FieldNames, Signature, Signatures};
pub use expr::{TypedCase, TypedCases, TypedExpr, TypedExprs, TypedKind};
pub use pattern::{TypedPattern, TypedPatternKind, TypedPatterns};
pub use sort::{GenericSort, GenericSorts};
pub use std::alloc::AllocError as NoMemory;
pub use typed::{
    Typed, TypedCtor, TypedCtors, TypedDef, TypedDefs, TypedParam, TypedParams, TypedPost,
    TypedRoot, TypedRoots,
};
