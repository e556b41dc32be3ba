//! The steps of a symbolic evaluation: straight-line code over the values of a program.
//!
//! `specs/Meaning` says what it means that values obey steps, `specs/Compile` which steps an expression has, and
//! `specs/Frames` those of calls and of a run.
#![tactic(auto)]

mod step;

pub use step::{Numbers, OpenCall, SortList, Step, Steps};
