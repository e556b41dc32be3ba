//! The words of the command line: what they ask, or that they are no line.
//!
//! `read` is the one call. The words are those of one simple `clap` command (`command`); each option has one value, as
//! the next word or after `=`, and stands once at most. What the values ask is told by `task`, their numbers are read
//! by `number` and the order by `order`. In `specs/`, `Line` says what a line of words asks, `Task` which options a
//! mode uses, with their ranges and defaults, and `Command`, `Number` and `Order` what stands below it. A later mode is
//! a case of `Task` more.
#![tactic(auto)]

mod command;
mod given;
mod line;
mod number;
mod order;
mod task;

pub use line::{Line, WordsFault, read};
pub use order::Order;
pub use std::alloc::AllocError as NoMemory;
pub use task::{Numbers, Task};
