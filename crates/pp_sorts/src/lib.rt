//! Written types as sorts.
//!
//! `specs/IsSort.antt` says which sort a written type is in a scope of type parameters and roots, and which rules it
//! may break; `specs/SortOf.antt` has the sort, or the first fault.
#![tactic(auto)]

mod head;
mod laws;
mod scope;
mod sort;

pub use head::Head;
pub use laws::{faults_stand, sorts_are_computed};
pub use scope::TypeScope;
pub use sort::{sort_of, sorts_of};
pub use std::alloc::AllocError as NoMemory;
