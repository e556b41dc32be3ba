//! What a plan tells.

ghost use Rattle.std.specs.Prelude.{◌≡◌, slice_get};
ghost use Rattle.pp_prog.specs.declared.program.Program.{Program};
ghost use Rattle.pp_checks.specs.Nested.{TellsNested};
ghost use Rattle.pp_checks.specs.Plan.{IsPlanOf, TellsClosed, TellsCone, TellsPlain, TellsRank};
ghost use Rattle.pp_checks.specs.Tables.{is_at_most};

use crate::ranks::{is_in_cone, is_marked};
use pp_list::{Items, at};
use pp_prog::{Check, CheckId, Checks, FunctionId};
use std::marker::Model;

/// The plan of a program: its checks, the order of the induction, which functions are closed, and which checks are
/// plain descents. That a plan is that of a program is one word, `IsPlanOf`, under which each call says its meaning.
/// For a number that the program doesn't have a call answers 0 or false; but each number is in its own cone. Contracts
/// see it as its tables.
#[derive(Drop)]
pub struct Plan {
    pub(crate) checks: Checks,
    pub(crate) rows: Items<Items<bool>>,
    pub(crate) ranks: Items<u32>,
    pub(crate) nestings: Items<Option<u32>>,
    pub(crate) tallest: Items<Option<u64>>,
    pub(crate) plains: Items<bool>,
}

impl Model for Plan {
    ghost use Rattle.pp_checks.specs.Plan as spec;

    ghost Value = { spec.Plan };

    ghost view = { λ p. record {
      checks = p.checks;
      rows = p.rows;
      ranks = p.ranks;
      nestings = p.nestings;
      tallest = p.tallest;
      plains = p.plains;
    } };
}

impl Plan {
    /// The checks of the program, in the order of their numbers. It takes no memory.
    pub fn checks(&self) -> &[Check]
        ensures { (program : Program) → IsPlanOf self.now program → result.now ≡ program.checks }
    {
        self.checks.as_slice()
    }

    /// The rank of the function: how many functions its cone has. It takes no memory.
    pub fn rank(&self, f: FunctionId) -> u32
        ensures { TellsRank self.now f.0 result }
    {
        match at(self.ranks.as_slice(), f.0 as usize) {
            None => 0,
            Some(rank) => *rank,
        }
    }

    /// Whether g is in the cone of f: it is f, or f reaches it. It takes no memory.
    pub fn in_cone(&self, f: FunctionId, g: FunctionId) -> bool
        ensures { TellsCone self.now f.0 g.0 result }
    {
        is_in_cone(self.rows.as_slice(), f.0 as usize, g.0 as usize)
    }

    /// Whether the function is closed at this round and depth: no function of its cone is recursive, its call tree
    /// is at most `round` deep, and each value of each parameter's sort is at most `depth` high. It takes no memory.
    pub fn closed(&self, f: FunctionId, round: u32, depth: u32) -> bool
        ensures { TellsClosed self.now f.0 round depth result }
    {
        is_within(self.nestings.as_slice(), f, round) && is_low(self.tallest.as_slice(), f, depth)
    }

    /// Whether the call tree of the function, contracts included, is at most `round` deep. It takes no memory.
    pub fn nested(&self, f: FunctionId, round: u32) -> bool
        ensures { TellsNested self.now f.0 round result }
    {
        is_within(self.nestings.as_slice(), f, round)
    }

    /// Whether the check is a plain descent. It takes no memory.
    pub fn plain(&self, check: CheckId) -> bool
        ensures { TellsPlain self.now check.0 result }
    {
        is_marked(self.plains.as_slice(), check.0 as usize)
    }
}

/// Whether there is a depth of the function's call tree, and it is at most this.
fn is_within(nestings: &[Option<u32>], f: FunctionId, round: u32) -> bool
    ensures { result ≡ is_at_most (slice_get nestings.now f.0) round }
{
    match at(nestings, f.0 as usize) {
        None => false,
        Some(None) => false,
        Some(Some(nesting)) => *nesting <= round,
    }
}

/// Whether there is a greatest height of the function's arguments, and it is at most this.
fn is_low(tallest: &[Option<u64>], f: FunctionId, depth: u32) -> bool
    ensures { result ≡ is_at_most (slice_get tallest.now f.0) depth }
{
    match at(tallest, f.0 as usize) {
        None => false,
        Some(None) => false,
        Some(Some(height)) => *height <= depth as u64,
    }
}
