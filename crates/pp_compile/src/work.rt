//! What is written.

use pp_steps::{Numbers, Steps};

/// The steps so far, and the numbers that tell whether the asked check fails.
#[derive(Drop)]
pub(crate) struct Work {
    pub steps: Steps,
    pub fails: Numbers,
}

/// The number of a part's value, and the number that tells whether it has one.
#[derive(Clone, Copy, PartialEq, Eq, Debug)]
pub(crate) struct Ends {
    pub out: u32,
    pub alive: u32,
}

/// The numbers of several values, and the number that tells whether all have one.
#[derive(Drop)]
pub(crate) struct Lists {
    pub out: Numbers,
    pub alive: u32,
}

/// The numbers of a frame's measure values, if it has any, and the number that tells whether they stand.
#[derive(Drop)]
pub(crate) struct Framed {
    pub frame: Option<Numbers>,
    pub alive: u32,
}

/// The steps of a run, the numbers of its arguments, and the number that tells whether the asked check fails.
#[derive(Drop)]
pub struct Run {
    pub steps: Steps,
    pub arguments: Numbers,
    pub fails: u32,
}

/// The steps of a guess run, the numbers of its arguments, the number that tells whether the asked check fails, one
/// that is true, and those that are supposed to be true.
#[derive(Drop)]
pub struct Guess {
    pub steps: Steps,
    pub arguments: Numbers,
    pub fails: u32,
    pub true_one: u32,
    pub supposed: Numbers,
}

/// The number of an outcome that there may be, and the number that tells whether there is one.
#[derive(Clone, Copy)]
pub(crate) struct Branch {
    pub out: Option<u32>,
    pub alive: u32,
}

/// Where a case is taken, and where the next one is tried.
#[derive(Clone, Copy)]
pub(crate) struct Goes {
    pub taken: u32,
    pub missed: u32,
}

/// A case that was tried: where it is taken, where the next one is tried, and its outcome.
#[derive(Clone, Copy)]
pub(crate) struct Tried {
    pub taken: u32,
    pub missed: u32,
    pub left: Ends,
}

/// The numbers that are all true exactly where a value fits a pattern, and the numbers of the values that are bound.
#[derive(Drop)]
pub(crate) struct Tests {
    pub tests: Numbers,
    pub bound: Numbers,
}
