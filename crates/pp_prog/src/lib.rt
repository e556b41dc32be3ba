//! Programs: types, values, expressions, functions and their checks.
//!
//! All layers above the type checker speak of these types. A program's validity is in its type, and so is that of a
//! table of datatypes, so whoever holds one needs no check of its own.
//!
//! `specs/Values` says what height and subtree are, `specs/Sorts` which values have which sort, `specs/Table` which
//! tables agree, `specs/Fits` which values fit a pattern, `specs/PatternSorts` and `specs/ExprSorts` which patterns and
//! expressions have which sort, `specs/Calls` which functions reach which, `specs/Listing` the sites of a function that
//! may carry checks, `specs/Names` which function has a name, and `specs/Valid` which programs are valid. `specs/Parts`
//! joins what the parts of an expression have, and `proofs/Induction` is how proofs go over expressions, cases and
//! patterns. `proofs/Sure`
//! gives the whole validity of a program from its type, `proofs/SortForms` the sort of each form of an expression, and
//! `proofs/SiteForms` its sites. `proofs/PartSorts` says what follows for the parts of an expression from its sort,
//! `proofs/ValueSorts` and `proofs/Fields` what a value of a sort is, and `proofs/PatternFits` what a pattern binds.
//!
//! `specs/Cone` says what the cone of a function is, which functions are recursive and which meet no datatype,
//! `specs/Sizes` how large the values of a sort are up to a height, and `specs/Results` how the sort of an expression
//! is read off its form; `proofs/Results` has the lemma that it is the expression's sort.
#![tactic(auto)]

mod calls;
mod check;
mod expr;
mod id;
mod place;
mod program;
mod sort;
mod types;
mod value;

pub use calls::{call_table, contract_calls};
pub use check::{Check, CheckKind, Checks};
pub use expr::{Case, Cases, Expr, Exprs, Function, Functions, Param, Params, Pattern, Patterns};
pub use id::{CheckId, CtorId, DataId, FunctionId};
pub use place::Place;
pub use pp_operators::{BinaryOp, UnaryOp};
pub use program::Program;
pub use sort::{Sort, Sorts};
pub use std::alloc::AllocError as NoMemory;
pub use types::{Ctor, Ctors, Datatype, Datatypes, TypeTable};
pub use value::{Value, Values};
