//! Shifts of lists of literals of any length, the lowest first, as circuits.
//!
//! The distance is a list of literals too, so it may be any number. A shift is one stage for each digit of the
//! distance: stage i moves by 2^i places where that digit is true, which takes at most one gate for each literal, and
//! none where the digit is constant. (own; the barrel shifter of the textbooks) `sign` is the digit that an
//! arithmetic shift fills in. The program `pp_circuit_cases` makes each call.
#![tactic(auto)]

mod moves;
mod shift;

pub use moves::sign;
pub use pp_clause::NoMemory;
pub use shift::{shl, shr, ushr};
