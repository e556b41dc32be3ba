//! Answers: what is put for a task and the bytes of its sources, which are fetched, or made from a seed.
//!
//! `respond` is the one call that does something. In `specs/`, `Answers` says what is put for which task and which
//! sources, with which status, `Claims` what the lines of a report claim, `Readings` what is read back from them and
//! from their text, and `Laws` what is true of all answers.
#![tactic(auto)]

mod laws;
mod responding;

pub use laws::{
    invalid_means_failed, lines_read_back, made_read_back, one_line_each, one_status,
    open_means_searched, runs_are_runs, text_read_back, valid_means_good,
};
pub use pp_modes::{Response, Status};
pub use responding::respond;
pub use std::alloc::AllocError as NoMemory;
