//! Which roots have a finite value.
//!
//! What a value of a sort is stands in `pp_typed/specs/Value`. The algorithm keeps a table: for each root and each
//! choice of its type parameters that have no value, whether the root has one then. A visit of a constructor writes the
//! rows of its root at which its fields have values; a work list names the visits, and a last pass finds that none is
//! left. `specs/Table.antt` reads the table, `specs/Settled.antt` says what a visit does to it, and `specs/Laws.antt`
//! which tables are exact.
#![tactic(auto)]

mod laws;
mod order;
mod table;
mod uninhabited;
mod visit;

pub use laws::closed_tables_are_exact;
pub use std::alloc::AllocError as NoMemory;
pub use uninhabited::first_uninhabited;
