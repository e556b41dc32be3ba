//! Assignments that the solver finds.

ghost use Rattle.std.specs.Prelude.{IfOk, IfSome};
ghost use Rattle.pp_clause.specs.Assignment.{assigned};
ghost use Rattle.pp_gate.specs.Circuit.{Gives};

use anyhow::{Result, bail, ensure};
use pp_cdcl::{Answer, solve};
use pp_clause::{Assignment, Clause, Lit};
use pp_gate::Circuit;
use std::alloc::Global;

/// How many lemmas the solver may learn.
const LEMMAS: u64 = 1 << 20;

/// The most gates of a circuit that is given to the solver.
const MOST: u32 = 1 << 28;

/// An assignment that gives each gate its value and makes the literals true, if there is one.
pub fn assignment(alloc: Global, circuit: &Circuit, asked: &[Lit]) -> Result<Option<Assignment>>
    ensures { IfOk result (λ found. IfSome found (λ a. Gives (assigned a) circuit.now)) }
{
    ensure!(circuit.gates() <= MOST, "too many gates");
    let clauses = circuit.clauses()?;
    if Clause::of(alloc, asked)?.is_none() {
        return Ok(None);
    }
    match solve(alloc, &clauses, asked, &[], LEMMAS)? {
        Answer::Sat(a) => Ok(Some(a)),
        Answer::Unsat(_) => Ok(None),
        Answer::Spent(_) => bail!("the lemmas are spent"),
    }
}
