//! The evaluator: what a run of a function comes to.
//!
//! `specs/Meaning` says what an expression means: an algebra on one layer and its fold, with the meaning of calls as a
//! parameter. `specs/Invocation` says what a call does, by recursion on the fuel, `specs/Measure` when the measure of a
//! call is below that of its caller, `specs/Operators` what the operators make of values, `specs/Equality` when values
//! are equal or proper subtrees, and `specs/Runs` what a run is and which functions are good. All are total: where an
//! expression has no meaning, it is `Stuck`, and where calls are nested deeper than the fuel, `Deep`.
//!
//! [`run`] is that definition as a plain program. [`unary`] and [`operate`] say what operators make of values, and
//! [`goes_down`] and [`one_sort`] when a measure is below another, for those who hold values of their own.
#![tactic(auto)]

mod equality;
mod eval;
mod fit;
mod invocation;
mod laws;
mod measure;
mod operators;
mod outcome;
mod runs;

pub use laws::{compare_trees, lasts_with_fuel, parts_last_with_fuel};
pub use measure::{goes_down, one_sort};
pub use operators::{operate, unary};
pub use outcome::{Halt, Outcome, Stop};
pub use runs::run;
pub use std::alloc::AllocError as NoMemory;
