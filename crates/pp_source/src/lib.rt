//! Sources: from bytes to the unit that they spell, or to the line that refuses them.
//!
//! `read` takes one source by text, tokens and tree. In `specs/`, `Units` says which unit bytes spell, `Refuses` why a
//! source is refused and with which line, and `Laws` that the two exclude each other.
#![tactic(auto)]

mod laws;
mod refusal;
mod source;

pub use laws::{refused_spell_none, units_are_unique};
pub use refusal::Refusal;
pub use source::{Source, read};
pub use std::alloc::AllocError as NoMemory;
