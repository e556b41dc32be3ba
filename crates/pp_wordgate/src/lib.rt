//! Circuits of words of 32 literals, each of which stands for an operation of `pp_word`. Products, quotients, remainders
//! and shifts, which take the circuits of `pp_products` and `pp_shifts`, stand in `pp_wordscale`.
//!
//! Under an assignment that gives each gate its value a word stands for an integer, that of its bits in two's
//! complement (`word_of` of `specs/Meaning.antt`), and what a call answers stands for what the operation of the same
//! name makes of the integers of its words. Each call may add as many gates as its budget allows, and no input; where
//! it ends in `NoMemory` it may leave some of them, and the old ones stay as they were. The program
//! `pp_circuit_cases` shows that constants fold, and that a second call on the same words adds nothing.
//!
//! | Call | Budget | Gates over fresh inputs |
//! |---|---|---|
//! | `constant` | 0 | 0 |
//! | `choose` | 32 | 32 |
//! | `equal` | 64 | 63 |
//! | `not` | 64 | 0 |
//! | `and`, `or`, `xor` | 64 | 32 |
//! | `neg` | 256 | 61 |
//! | `less` | 256 | 32 |
//! | `add`, `sub` | 256 | 94 |
//!
//! `unknown` is a word of 32 fresh inputs, which can stand for each value, and `value` the one for which a word
//! stands under an assignment.
//!
//! The budgets are proved; the gates over fresh inputs are counted by that program. How a call builds its circuit may
//! change within its budget. The lemmas of `proofs/` are stated at any width.
#![tactic(auto)]

mod bits;
mod choice;
mod fresh;
mod order;
mod sums;

pub use bits::{and, not, or, xor};
pub use choice::{choose, constant};
pub use fresh::{unknown, value};
pub use order::{equal, less};
pub use pp_clause::NoMemory;
pub use sums::{add, neg, sub};
