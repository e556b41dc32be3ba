//! The arithmetic of Scala's `Int`, on `i32`.
//!
//! Each call has one value for each pair of words. `specs/Word.antt` names these values, for words of any width, so
//! that `Long` can have the same definitions at 64 bits. The files `Wrapping`, `Division`, `Shifts`, `Bits` and
//! `Order` of `specs/` say in plain integers what is wanted of them, after section 12.2.1 of the Scala Language
//! Specification 2.13 and the Java Language Specification (JLS, Java SE 17). The functions whose names end in `_law`
//! do nothing: their contracts tie the two, at each width, and the check proves them.
//!
//! No call takes memory, and none refuses anything but a divisor of 0. How a value is computed may change freely. The
//! program `pp_circuit_cases` has their values on a JVM.
#![tactic(auto)]

mod bits;
mod division;
mod order;
mod shifts;
mod sums;

pub use bits::{and, bit_law, not, or, xor};
pub use division::{div, division_law, rem};
pub use order::{at_most, less, order_law};
pub use shifts::{shift_law, shl, shr, ushr};
pub use sums::{add, mul, neg, sub, wrapping_law};
