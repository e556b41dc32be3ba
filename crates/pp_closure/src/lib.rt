//! Refutes what is supposed of steps: by congruence closure, with sums and the order of numbers, and by cases.
//!
//! The steps of a guess run tell, with the numbers that are supposed to be true, when a check fails. `refuted` looks
//! for a contradiction: it takes what is supposed as facts, lets each step say what follows for its operands and its
//! value, and names steps that have one value by one of them. Where nothing more follows, a test that isn't decided is
//! first taken as false and, if that is refuted, as true. It answers `true` only where no values obey the steps and
//! make all that is supposed true; where it answers `false` nothing is known. `refute_on_demand` does the same, and where
//! it doesn't know it tells which of the calls that are left open are to be unfolded, so that it may.
//!
//! `specs/Valuation` says what values of the steps are, `specs/Facts` what it means that facts hold of them. What may
//! be changed: which rules there are, in which order they are tried, and how long is searched. None of it is promised.
//!
//! - `class`, `facts`: what is known of the value of a step, and how it is noted.
//! - `truths`, `trees`, `sums`, `bounds`, `reduced`, `orders`: what a step says, by what its value is.
//!   `equality`: equations.
//! - `chains`, `offsets`: what orders say together, and with sums. `walks`: which chains are looked at. `descents`:
//!   numbers in measures.
//! - `additions`, `amounts`: what a sum of two says of each of the three, and where it doesn't wrap.
//! - `product`, `terms`, `parts`: sums of products of steps, modulo 2^32, and what a step is made of.
//! - `alike`, `operators`, `seen`: which steps do the same to the same values; `calls`: which open calls have one answer;
//!   `wholes`: trees that are one have the same fields, and a tree is what is made of its fields.
//! - `learning`: what each step says. `closing`: all steps that are due, until nothing more follows; `agenda` and
//!   `news`: which are. `refuting`: the cases; `undecided`: which test comes next; `wanted`: which calls are unfolded.
#![tactic(auto)]

mod additions;
mod agenda;
mod alike;
mod amounts;
mod bounds;
mod calls;
mod chains;
mod class;
mod closing;
mod descents;
mod equality;
mod facts;
mod learning;
mod news;
mod offsets;
mod operators;
mod orders;
mod parts;
mod product;
mod reduced;
mod refuting;
mod seen;
mod sums;
mod terms;
mod trees;
mod truths;
mod undecided;
mod walks;
mod wanted;
mod wholes;

pub use refuting::{Refutation, refute_on_demand, refuted};
pub use std::alloc::AllocError as NoMemory;
pub use wanted::{Unfoldable, Unfoldables};
