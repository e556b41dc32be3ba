//! What the parser keeps: the frames of what is open, the modes, the parts of both, and the words and numbers of single
//! tokens. Frames and modes hold no names, trees or lists: these are their parts, which lie on the stack, each kind in
//! a list of its own. On `NoMemory` what was made stays in the arena until its reset, and any parts may lie on the
//! stack.
//!
//! The parser is an automaton that takes one token at a time, whose definition stands in `pp_grammar`. Each value here
//! stands for one of that definition: `specs/Shown.antt` says which.
#![tactic(auto)]

mod current;
mod fault;
mod frame;
mod joining;
mod mode;
pub mod numbers;
pub mod operators;
mod parts;
mod spares;
mod stack;
pub mod words;

pub use current::Current;
pub use fault::Stop;
pub use frame::{Around, Contracts, Frame, Head, Kind, Placed};
pub use joining::{seal, unwind};
pub use mode::{Mode, Move};
pub use pp_tree::NoMemory;
pub use stack::Stack;
