//! A look at a tree: its constructors and fields come in, under the condition of the domain.
//!
//! `expand` looks at a tree: before the first look it works out the groups of datatypes (`touch`), it makes contents
//! that can be those of each value (`prepare`), and puts the tree in (`enter`), so that the domain's condition says
//! that it agrees with the trees that were looked at before and comes after its fields. `is_ctor` and `field` read what
//! such a tree tells, and `construct` makes a tree whose contents are known. Each call says what it leaves, also where
//! memory ends, and stays within a domain's allowance.
#![tactic(auto)]

mod contents;
mod entry;
mod groups;
mod look;
mod new;
mod read;

pub use contents::prepare;
pub use entry::enter;
pub use groups::touch;
pub use look::expand;
pub use new::construct;
pub use pp_clause::NoMemory;
pub use read::{field, is_ctor};
