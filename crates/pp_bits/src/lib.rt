//! Arithmetic on lists of literals of any length, the lowest first, as circuits.
//!
//! Under an assignment that gives each gate its value a list stands for the natural number of which its literals are
//! the binary digits (`nat_of` in `specs/`). Each contract says what the answer stands for, how many gates come after
//! the old ones at most, also where memory ends (`NoMemory`), and that no input comes in. The gates of the last
//! column are counted by the program `pp_circuit_cases`, which makes each call, and shows that a second call on the
//! same operands adds none.
//!
//! | Call | For a and b of n digits | Gates at most | Over 32 fresh inputs each |
//! |---|---|---|---|
//! | `constant` | a number's lowest n digits | 0 | 0 |
//! | `invert` | 2^n - 1 - a | 0 | 0 |
//! | `and`, `or`, `xor` | digit by digit | n | 32 |
//! | `choose` | one of the two, by a literal | n | 32 |
//! | `add` | a + b modulo 2^n | 3n | 94 |
//! | `add_carry` | the same, and the carry | 3n | 95 |
//! | `sub` | a - b modulo 2^n | 3n | 94 |
//! | `sub_borrow` | the same, and the borrow | 3n | 95 |
//! | `neg` | 2^n - a modulo 2^n | 3n | 61 |
//! | `equal` | a = b | 2n | 63 |
//! | `less` | a < b, of natural numbers | n | 32 |
//! | `less_signed` | a < b, in two's complement | n | 32 |
//! | `inputs` | any number | n inputs | |
#![tactic(auto)]

mod bitwise;
mod choice;
mod fresh;
pub mod laws;
mod order;
mod sum;

pub use bitwise::{and, or, xor};
pub use choice::{choose, constant, invert};
pub use fresh::{inputs, number};
pub use order::{equal, less, less_signed};
pub use pp_clause::NoMemory;
pub use sum::{add, add_carry, neg, sub, sub_borrow};
