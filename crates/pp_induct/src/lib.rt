//! Verdicts: what the ends of all checks of a program say of its functions.
//!
//! `conclude` gives each function its verdict, by the first row of a table that applies, and a function that is valid
//! is good, by measure induction (`pp_induction`). `specs/Supported` says what has to stand behind the ends of
//! checks, `specs/Verdicts` what the table is, `specs/Reports` what stands behind a report, and `specs/Laws` which ends
//! a report can't have. `specs/Concluding` is of the making.
#![tactic(auto)]

mod concluding;
mod ends;
mod laws;
mod limits;
mod verdict;

pub use concluding::conclude;
pub use ends::{CheckEnd, Ends, Why};
pub use laws::{closed_are_decided, failing_are_found, plain_are_decided};
pub use limits::{FRONTED_ABOVE, Limits};
pub use std::alloc::AllocError as NoMemory;
pub use verdict::{Report, Verdict, Verdicts};
