//! Whether a log refutes.
ghost use Rattle.std.specs.Prelude.{◌≡◌, ◌↔◌, false, length, [], All, IsTrue, IfOk};
ghost use Rattle.pp_clause.specs.Clause.{IsClause, IsUnsatisfiable};
ghost use Rattle.pp_clause.specs.Log.{all_negated, Refutes};
ghost use Rattle.pp_clause.specs.Bound.{Fits};
ghost use Rattle.pp_refute.specs.Table.{Agrees};
ghost use Rattle.pp_refute.specs.Checking.{AllFit, IsStruck};

use crate::NoMemory;
use crate::bound::table_len;
use crate::replay::{is_clear_of_clause, is_derived};
use crate::table::{is_marked, mark_all};
use pp_clause::{Clauses, Lemma, Lit, Log};
use std::alloc::Global;

/// Whether the log refutes the clauses under the assumptions: it isn't empty, each lemma is derived by its chain
/// from the clauses and the lemmas before it, and each literal of the last lemma is the negation of an assumption.
/// Then no assignment makes the clauses and the assumptions true.
pub fn accepts(
    alloc: Global,
    clauses: &Clauses,
    assumptions: &[Lit],
    log: &Log,
) -> Result<bool, NoMemory>
    ensures exact { IfOk result (λ yes. IsTrue yes ↔ Refutes clauses.now assumptions.now log.now) }
    ensures sound { IfOk result (λ yes. IsTrue yes → IsUnsatisfiable clauses.now assumptions.now) }
{
    let lemmas = log.as_slice();
    let mut table = vec![in alloc; None; table_len(clauses, lemmas)]?;
    Ok(refutes(clauses, assumptions, lemmas, &mut table))
}

/// Whether the lemmas refute the clauses under the assumptions, on a table without literals.
fn refutes(
    clauses: &Clauses,
    assumptions: &[Lit],
    lemmas: &[Lemma],
    table: &mut [Option<bool>],
) -> bool
    requires empty { Agrees table.old [] }
    requires clauses_fit { AllFit (length table.old) clauses.now }
    requires lemmas_fit { All (λ m. Fits (length table.old) m.clause) lemmas.now }
    ensures yes { IsTrue result → Refutes clauses.now assumptions.now lemmas.now }
    ensures no { result ≡ false → ¬ Refutes clauses.now assumptions.now lemmas.now }
{
    let Some(last) = lemmas.last() else {
        return false;
    };
    if !is_negated(assumptions, last.clause.lits(), table) {
        return false;
    }
    for place in 0..lemmas.len() {
        if !is_derived(clauses, &lemmas[..place], &lemmas[place], table) {
            return false;
        }
    }
    true
}

/// Whether the negation of each literal of the clause is an assumption. On a yes the table is as before: it has no
/// literals.
fn is_negated(assumptions: &[Lit], clause: &[Lit], table: &mut [Option<bool>]) -> bool
    requires empty { Agrees table.old [] }
    requires fits { Fits (length table.old) clause.now }
    requires order { IsClause clause.now }
    ensures value { result ≡ all_negated assumptions.now clause.now }
    ensures empty { IsTrue result → Agrees table.new [] }
{
    mark_all(table, clause);
    for lit in assumptions {
        strike(table, *lit);
    }
    is_clear_of_clause(table, clause)
}

/// Takes the negation of the literal out of the table, where it is there.
fn strike(table: &mut [Option<bool>], lit: Lit)
    ensures { IsStruck table.old table.new lit }
{
    let place = lit.var() as usize;
    if place < table.len() && is_marked(table, lit.negated()) {
        table[place] = None;
    }
}
