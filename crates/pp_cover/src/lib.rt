//! Coverage of matches: whether each value of a sort fits one of some patterns.
//!
//! `covered` works on pattern matrices (`matrix`): a row for each pattern, a column for each field that is looked at. A
//! row lists its constraints alone (`constraint`), so a wildcard costs nothing. It takes a matrix apart by the
//! constructors of the values in one column (`split`) until a row constrains nothing or no row is left (`cover`).
//! `specs/Constraint` and `specs/Matrix` say what constraints and matrices mean, `specs/Split` which matrices one is
//! taken apart into. Which column is taken, and in which order matrices are, may be changed.
//!
//! # Speed
//!
//! A matrix gives way to at most one for each constructor that its rows name in the column, and one for all others,
//! which is looked at first. A matrix that isn't covered ends the search, and a column of numbers never multiplies
//! matrices. The column is one that a shortest row constrains, so this row soon decides a whole branch. As measured,
//! matches whose cases tell values apart one field after another take milliseconds, also with thousands of cases, and
//! those with a last case for the rest end at once. No clause speaks of time.
//!
//! Coverage is hard in general, since it decides whether a propositional formula in disjunctive normal form always
//! holds. Slow are sources in which many cases each constrain a few of the same many fields, no field is constrained
//! by most of the cases, and yet all values are covered. Where a case says that two of n + 1 pigeons sit in one of n
//! holes, or that one sits in none, a hole more takes about ten times longer (`benches/cover.sh`). Recursion is no
//! deeper than names are nested that are bound to one value, as in `a @ (b @ _)`.
#![tactic(auto)]

mod constraint;
mod cover;
mod fault;
mod matrix;
mod split;

pub use cover::covered;
pub use fault::CoverFault;
pub use std::alloc::AllocError as NoMemory;
