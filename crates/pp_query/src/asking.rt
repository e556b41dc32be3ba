//! The solver is asked whether two literals of a circuit can be true together.

ghost use Rattle.std.specs.Prelude.{◌≡◌, ◌^◌, ◌<◌, ◌≤◌, All, IfOk, length};
ghost use Rattle.pp_limits.specs.declared.TheConstants.{GATES, LEMMAS};
ghost use Rattle.pp_gate.specs.Circuit.{IsCircuit, IsOf};
ghost use Rattle.pp_query.specs.Reply.{AreClausesOf, IsReply, asked_of};

use crate::NoMemory;
use crate::compared::comparisons;
use crate::reply::Reply;
use pp_cdcl::{Answer, solve};
use pp_clause::{Clauses, Lit, Lits, Spent};
use pp_gate::Circuit;
use pp_symbolic::Mode;
use std::alloc::Global;

/// Asks for an assignment that gives each gate its value and makes both literals true: that the check fails, and that
/// all that was supposed holds. The solver may learn so many lemmas. The mode says what it decides first. The only
/// error is want of memory.
pub(crate) fn ask(
    alloc: Global,
    circuit: &Circuit,
    fails: Lit,
    circuit_ok: Lit,
    mode: Mode,
    lemmas: u64,
) -> Result<Reply, NoMemory>
    requires circuit { IsCircuit circuit.now }
    requires small { length circuit.now ≤ GATES.most }
    requires fails { IsOf circuit.now fails }
    requires circuit_ok { IsOf circuit.now circuit_ok }
    requires lemmas { (1 ≤ lemmas) × (lemmas ≤ LEMMAS.most) }
    ensures reply { IfOk result (λ reply. IsReply circuit.now fails circuit_ok lemmas reply) }
{
    if fails == circuit_ok.negated() {
        return Ok(Reply::NoModel);
    }
    let assumptions = assumptions(alloc, fails, circuit_ok)?;
    let asked = assumptions.as_slice();
    let clauses = clauses_of(circuit, asked)?;
    let first = first_decided(alloc, &clauses, fails, mode)?;
    match solve(alloc, &clauses, asked, &first, lemmas)? {
        Answer::Sat(assignment) => {
            let whole = circuit.complete(&assignment)?;
            Ok(Reply::Model(whole))
        }
        Answer::Unsat(_) => Ok(Reply::NoModel),
        Answer::Spent(log) => {
            let evidence = Spent {
                clauses,
                assumptions,
                log,
            };
            Ok(Reply::Spent(evidence))
        }
    }
}

/// The variables that are decided first: of a guess run those that tell that words are equal, of a run none, so that
/// the arguments that are shown have small numbers.
fn first_decided(
    alloc: Global,
    clauses: &Clauses,
    fails: Lit,
    mode: Mode,
) -> Result<Vec<u32>, NoMemory> {
    match mode {
        Mode::Real => Ok(Vec::new(alloc)),
        Mode::Guess => comparisons(alloc, clauses, fails),
    }
}

/// The literals that are asked to be true.
fn assumptions(alloc: Global, fails: Lit, circuit_ok: Lit) -> Result<Lits, NoMemory>
    ensures { IfOk result (λ lits. lits ≡ asked_of fails circuit_ok) }
{
    let mut lits = Lits::new(alloc);
    lits.push(fails)?;
    lits.push(circuit_ok)?;
    Ok(lits)
}

/// The clauses of the gates on which the literals stand.
fn clauses_of(circuit: &Circuit, asked: &[Lit]) -> Result<Clauses, NoMemory>
    requires room { length circuit.now ≤ 2 ^ 28 }
    requires of { All (IsOf circuit.now) asked.now }
    ensures { IfOk result (λ clauses. AreClausesOf circuit.now asked.now clauses) }
{
    let clauses = circuit.clauses_of(asked)?;
    // `len` tells that each of them is a clause
    let _count = clauses.len();
    Ok(clauses)
}
