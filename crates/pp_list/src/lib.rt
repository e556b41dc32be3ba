//! Lists and boxes for types that contain themselves.
//!
//! `Items<T>` is a `Vec` that contracts see as the list of its elements, and `Boxed<T>` a `Box` that they see as its
//! value. So a tree that is built of them has no pointer in its value, and a contract can say that it equals what a
//! definition computes. Both come from the toolchain's library `sqlite_items`; this crate is the one place that names
//! it. What the library lacks is added here.
//!
//! For definitions and proofs of all layers `specs/Joined.antt` has lists one after another, with lemmas in
//! `proofs/Joined`; `proofs/With` pairs elements with what is known of them, as inductions do; `proofs/Lists`,
//! `Numbers` and `Integers` have what the standard library lacks.
#![tactic(auto)]

pub use sqlite_items::{Boxed, Items, at};

#[cfg(test)]
mod tests;
