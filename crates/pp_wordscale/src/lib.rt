//! Products, quotients, remainders and shifts of words of 32 literals, each of which stands for an operation of
//! `pp_word`. The other operations, and what a word stands for, are those of `pp_wordgate`.
//!
//! What a call answers stands for what the operation of the same name makes of the integers of its words. Each call may
//! add as many gates as its budget allows, and no input; where it ends in `NoMemory` it may leave some of them, and the
//! old ones stay as they were. The program `pp_circuit_cases` shows that constants fold, and that a second call on the
//! same words adds nothing.
//!
//! | Call | Budget | Gates over fresh inputs |
//! |---|---|---|
//! | `shl`, `ushr` | 512 | 160 |
//! | `shr` | 512 | 155 |
//! | `mul` | 8,192 | 1,954 |
//! | `div` | 16,256 | 2,418 |
//! | `rem` | 16,256 | 2,417 |
//!
//! The budgets are proved; the gates over fresh inputs are counted by that program. How a call builds its circuit may
//! change within its budget. Division is stated for lists of any length (`signed`), and the lemmas of `proofs/` at any
//! width.
#![tactic(auto)]

mod division;
mod products;
mod shifts;
mod signed;

pub use division::{div, rem};
pub use pp_clause::NoMemory;
pub use products::mul;
pub use shifts::{shl, shr, ushr};
