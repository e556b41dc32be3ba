//! Arguments that fail checks.

use pp_list::Items;
use pp_prog::{CheckId, Values};

/// Arguments that fail the check.
#[derive(Drop)]
pub struct Failure {
    pub check: CheckId,
    pub args: Values,
}

/// Failures of checks of one function.
pub type Failures = Items<Failure>;
