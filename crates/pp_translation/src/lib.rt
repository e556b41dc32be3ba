//! What a program is that belongs to typed units at the arguments of instances: definitions alone.
//!
//! `specs/Numbers` says which numbers functions, datatypes and constructors have, `specs/Patterns`, `specs/Exprs` and
//! `specs/Functions` what each declaration is at the type arguments of an instance, with the numbers of checks left out
//! (`specs/Bare`), and `specs/Places` where the checks stand. `specs/Numbered` says what expressions with their checks
//! are.
#![tactic(auto)]

mod frame;

pub use frame::{CheckAt, Frame};
