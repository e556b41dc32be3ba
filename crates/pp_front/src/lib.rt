//! The front: from the bytes of sources to the program that they have and its plan, or to the line that refuses them.
//!
//! `accept` takes all sources, in order, each as text, tokens and tree; then come typing, instances and the plan. In
//! `specs/`, `Programs` says which program sources have, and `Refuses` why they are refused and with which line.
#![tactic(auto)]

mod accepting;
mod planned;
mod sources;
mod typed;

pub use accepting::{Accepted, accept};
pub use pp_source::Refusal;
pub use std::alloc::AllocError as NoMemory;
