//! Sorts with type parameters: copies and equality, what is put in place of the parameters, and what is found of them.
//!
//! Where a function or a constructor is applied, its type parameters are found one by one: what is found so far is a
//! `Found`, and what is expected of an expression is an `Expected`, a sort of which parts may be open.
//! `specs/Expected.antt` and `specs/Found.antt` have the definitions; when two sorts are the same stands with
//! `pp_typed`.
#![tactic(auto)]

mod expected;
mod found;
mod limit;
mod sort;

pub use expected::{Expected, exact, expect, fits, known, whole};
pub use found::{Found, all_found, learn, none_found};
pub use limit::MOST_NODES;
pub use sort::{are_same, copies, copy, put};
pub use std::alloc::AllocError as NoMemory;
