//! Where expressions stand, and their checks.

use pp_prog::CheckKind;
use pp_typed::GenericSorts;

/// The instance whose text is translated: its number, its type arguments, and whether it has a measure.
#[derive(Drop)]
pub struct Frame {
    pub number: u32,
    pub args: GenericSorts,
    pub measured: bool,
}

/// A check: the number of its function, its kind, its source from 1 and its offset there. Its own number is its place
/// in the list of checks.
#[derive(Clone, Copy, Debug)]
pub struct CheckAt {
    pub function: u32,
    pub kind: CheckKind,
    pub source: u32,
    pub at: u32,
}
