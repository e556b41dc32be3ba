//! The table of the datatypes of a program of instances.
//!
//! Which table it is, is said in `pp_translation`; `specs/Datatypes` says which instances are the datatypes of a
//! program. That their lists are a table, each datatype with a value, is proved here, once for all programs.
#![tactic(auto)]

mod table;

pub use std::alloc::AllocError as NoMemory;
pub use table::table_of;
