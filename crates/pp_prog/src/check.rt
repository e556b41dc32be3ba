//! Checks: the places of a program that can fail.

use crate::{CheckId, FunctionId, Place};
use pp_list::Items;

/// What a check demands: that the precondition of a called function is true; that the postcondition is true of the
/// result; that some case of a match is taken; that a divisor isn't 0; that the measure of a called function is below
/// the caller's; that an asserted condition is true.
#[derive(Clone, Copy, PartialEq, Eq, Debug)]
pub enum CheckKind {
    Precondition,
    Postcondition,
    Match,
    Division,
    Measure,
    Assertion,
}

/// A check: its number, the function that it belongs to, its kind and its place in the sources.
#[derive(Clone, Copy, PartialEq, Eq, Debug)]
pub struct Check {
    pub id: CheckId,
    pub function: FunctionId,
    pub kind: CheckKind,
    pub place: Place,
}

/// A list of checks.
pub type Checks = Items<Check>;
