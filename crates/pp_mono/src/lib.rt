//! From typed units to the one program of their instances.
//!
//! `specs/Concrete` says which program belongs to typed units, in the words of `pp_translation`, and
//! `pp_typed/specs/Limits` how large typed units may be.
#![tactic(auto)]

mod fault;
mod making;

pub use fault::MonoFault;
pub use making::concrete;
pub use std::alloc::AllocError as NoMemory;
