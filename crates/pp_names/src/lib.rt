//! What has a name: the tables of the names that all units declare.
//!
//! A `NameTable` is a list of different names in which each is found by its text. `Names` are the declarations of all
//! units, whose roots, constructors and functions are found by their names, and the constructors of each root by its
//! place. `specs/Places.antt` says which place a name has, `specs/Find.antt` the same of the declarations, and
//! `specs/Reserved.antt` which words have none, since no source can declare them.
#![tactic(auto)]

mod by_root;
mod names;
mod reserved;
mod table;

pub use names::{Names, Spaces};
pub use reserved::is_reserved;
pub use std::alloc::AllocError as NoMemory;
pub use table::NameTable;
