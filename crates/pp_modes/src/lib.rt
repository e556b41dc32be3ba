//! The modes: what is answered to a task on an accepted program and its plan.
//!
//! `answer` is the one call. Its response is a status with the lines of a report, or with the one line of a refusal. In
//! `specs/`, `Answers` says what is answered to which task, `Verdicts`, `Lists` and `Runs` what the modes print, and
//! `Codes` what the exit statuses are.
#![tactic(auto)]

mod answering;
mod counts;
mod list;
mod make;
mod response;
mod run;
mod status;
mod verify;

pub use answering::answer;
pub use response::Response;
pub use status::Status;
pub use std::alloc::AllocError as NoMemory;
