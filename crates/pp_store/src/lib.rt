//! Values by number: the memory of an evaluator that doesn't recurse on the height of what it holds.
//!
//! A [`Store`] is the list of the trees that were made in it, and a [`Held`] a value that is a number, a truth value,
//! or the number of a tree. Contracts see a store as the list of its trees, so what a held value stands for is a look
//! into a list: `specs/Values`. A store only grows, and what was held stands for the same value ever after: there it is
//! said what growing is, and `proofs/Values` has the lemmas that it keeps values.
//!
//! `specs/Nodes` says which trees the nodes of a store stand for. How a store keeps its trees may be changed, as may
//! the order in which two values are compared and a tree is searched. No call recurses on the height of a value.
#![tactic(auto)]

mod below;
mod freeing;
mod held;
mod load;
mod node;
mod same;
mod store;
#[cfg(test)]
mod tests;
mod unload;

pub use freeing::release;
pub use held::Held;
pub use std::alloc::AllocError as NoMemory;
pub use store::{Parts, Store};
