//! The plan of a program: which functions need which measures, the order of the induction, which functions are
//! closed at a round and a depth, and which measure checks are plain descents.
//!
//! `plan` gives it, or names the first function that breaks a rule of measures. `specs/Rules` says what these rules
//! are, `specs/Ranks` what a rank is, `specs/Closed` which functions are closed, `specs/Plain` which checks are
//! plain descents, `specs/Plan` what it means that a plan is that of a program, `specs/Nested` what it tells of the
//! depth of call trees, and `specs/Laws` what follows from that. `specs/Marks` and `specs/Tables` are of the making:
//! how plain descents are found, and what holds while a plan's tables are made.
#![tactic(auto)]

mod fault;
mod heights;
mod laws;
mod nesting;
mod plain;
mod planning;
mod ranks;
mod rules;
mod scope;
mod sorts;
mod tables;

pub use fault::PlanFault;
pub use heights::{ctors_of, field_table};
pub use laws::{
    call_lower_ranks, contracts_call_lower_ranks, measures_share_sorts, read_sorts, share_ranks,
};
pub use planning::plan;
pub use sorts::{field_sort, fields_of, operator_sort};
pub use std::alloc::AllocError as NoMemory;
pub use tables::Plan;
