//! Responses.

use crate::Status;

/// What is put, and how the program then ends.
#[derive(Drop)]
pub enum Response {
    /// The lines of a report, for `out`.
    Report(Status, Vec<String>),
    /// The line that says why there is no report, for `err`.
    Refusal(Status, String),
}
