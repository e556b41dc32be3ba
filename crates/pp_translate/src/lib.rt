//! The functions of a program from typed functions at the arguments of instances, with the numbers of their checks.
//!
//! `specs/Numbered` of `pp_translation` says what the code is proved to give.
#![tactic(auto)]

mod conditions;
mod covered;
mod exprs;
mod functions;
mod patterns;
mod sites;
mod target;

pub use functions::{checks_of, function_of, functions_of, place_at};
pub use std::alloc::AllocError as NoMemory;
pub use target::Target;
