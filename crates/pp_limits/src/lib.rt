//! The bounds of the command line, each once: which numbers an option takes, and which it has where no word gives it.
//!
//! Contracts cite them as the constants of this crate. A bound is changed here, and in the pages.
#![tactic(auto)]

/// The numbers that an option takes.
#[derive(Clone, Copy, Debug, PartialEq, Eq)]
pub struct Range {
    /// The number where no word gives one.
    pub default: u32,
    /// The least number.
    pub least: u32,
    /// The greatest.
    pub most: u32,
}

/// The last round that is searched and proved (`--rounds`).
pub const ROUNDS: Range = Range {
    default: 4,
    least: 0,
    most: 12,
};

/// The greatest height of the arguments that are searched (`--depth`).
pub const DEPTH: Range = Range {
    default: 3,
    least: 1,
    most: 6,
};

/// How many lemmas a query may take (`--lemmas`).
pub const LEMMAS: Range = Range {
    default: 10_000,
    least: 1,
    most: 1_000_000,
};

/// How many gates a round may be estimated at (`--gates`).
pub const GATES: Range = Range {
    default: 2_000_000,
    least: 1,
    most: 4_000_000,
};

/// How many calls of a run may be nested (`--fuel`).
pub const FUEL: Range = Range {
    default: 100,
    least: 0,
    most: 100_000,
};

/// How many calls the plain evaluator nests, which does it on the processor's own stack.
pub const MOST_NESTED: u32 = 100;

/// The least seed of a made source (`--seed`). No seed is taken where no word gives one.
pub const LEAST_SEED: u32 = 1;

/// The greatest seed.
pub const MOST_SEED: u32 = 200;

/// How many sources there may be.
pub const MOST_SOURCES: usize = 16;
