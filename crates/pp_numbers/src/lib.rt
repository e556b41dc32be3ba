//! The numbers that functions, datatypes and constructors have in the program of some instances, and the sorts of that
//! program.
//!
//! Which numbers they have, and what the table of datatypes is, is said in `pp_translation`; `specs/Tables` says what
//! [`Numbers`] keeps beside the members. How a number is found may change freely.
#![tactic(auto)]

mod ctors;
mod numbers;
mod sorts;
mod tables;

pub use ctors::{ctors_of, datatypes_of};
pub use numbers::Numbers;
pub use sorts::{args_of, puts, sort_at};
pub use std::alloc::AllocError as NoMemory;
pub use tables::numbers_of;
