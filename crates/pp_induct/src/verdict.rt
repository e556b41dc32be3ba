//! What is said of functions.

use crate::Ends;
use pp_list::Items;
use pp_prog::{CheckId, FunctionId};

/// What is said of a function: it is valid; it depends on a function whose checks aren't all settled; arguments fail
/// this check of it; this check of it is open.
#[derive(Clone, Copy, PartialEq, Eq, Debug)]
pub enum Verdict {
    Valid,
    Depends(FunctionId),
    Invalid(CheckId),
    Open(CheckId),
}

/// The verdicts on the functions of a program, in program order.
pub type Verdicts = Items<Verdict>;

/// What was found of a program: the end of each check and the verdict on each function.
#[derive(Drop)]
pub struct Report {
    pub checks: Ends,
    pub verdicts: Verdicts,
}
