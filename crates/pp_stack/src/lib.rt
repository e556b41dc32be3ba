//! The evaluator as a machine: what a run comes to, without recursion on the nesting of calls or expressions.
//!
//! `run` is `pp_eval::run` for more fuel: its outcome is that of the definition. `run_within` gives up after so many
//! turns. What is left to do is a list (`todo`), values that are worked on are lists of what holds them (`stacks`,
//! crate `pp_store`), and a turn does the last thing that is left (`machine`, `call`). `specs/State` says what the
//! lists stand for, `specs/Left` what the things that are left come to: each is a part of a continuation. A turn keeps
//! what is left to come.
//!
//! Recursion goes down the patterns of a case, which are as deep as their source, and the drop of a value.
#![tactic(auto)]

mod call;
mod claim;
mod fit;
mod head;
mod machine;
mod measure;
mod runs;
mod see;
mod stacks;
mod todo;

pub use runs::{run, run_within};
pub use std::alloc::AllocError as NoMemory;
