//! Products and quotients of lists of literals of any length, the lowest first, as circuits.
//!
//! Under an assignment that gives each gate its value a list stands for the natural number of which its literals are
//! the binary digits (`nat_of` of `pp_bits`). Each contract says what the answer stands for, how many gates come
//! after the old ones at most, also where memory ends (`NoMemory`), and that no input comes in. The gates of the last
//! column are counted by the program `pp_circuit_cases`, which makes each call, and shows that a second call on the
//! same operands adds none.
//!
//! | Call | For a of n digits and d of m | Gates at most | Over 32 fresh inputs each |
//! |---|---|---|---|
//! | `mul` | the product modulo 2^n, of two of n digits | 2n(n + 1) | 1,954 |
//! | `divide` | quotient and remainder of a by d, where d isn't 0 | (5m + 4)n | 2,141 |
#![tactic(auto)]

mod digits;
mod product;
mod quotient;

pub use pp_bits::NoMemory;
pub use product::mul;
pub use quotient::divide;
