//! Whether a chain derives the clause of its lemma.
ghost use Rattle.std.specs.Prelude.{◌≡◌, true, false, length, [], None, IsTrue, IfSome};
ghost use Rattle.std.specs.Option.{option_copied};
ghost use Rattle.pp_clause.specs.Clause.{IsClause};
ghost use Rattle.pp_clause.specs.Derivation.{numbered, derived_by, Derives};
ghost use Rattle.pp_clause.specs.Bound.{Fits};
ghost use Rattle.pp_refute.specs.Table.{Agrees};
ghost use Rattle.pp_refute.specs.Checking.{clauses_before, AllFit, HasDerived, TakesOut, Lacks, is_clear_of};
ghost use Rattle.pp_refute.specs.Checking.{IsClearOfAll, HasSome};

use crate::table::{is_marked, mark_all, resolve};
use pp_clause::{Clauses, Lemma, Lit};

/// Whether the lemma is derived by its chain from the clauses and the lemmas before it. On a yes the table is as
/// before: it has no literals.
pub fn is_derived(
    clauses: &Clauses,
    before: &[Lemma],
    lemma: &Lemma,
    table: &mut [Option<bool>],
) -> bool
    requires empty { Agrees table.old [] }
    requires fits { AllFit (length table.old) (clauses_before clauses.now before.now) }
    requires lemma_fits { Fits (length table.old) lemma.now.clause }
    ensures yes { IsTrue result → Derives (clauses_before clauses.now before.now) lemma.now.chain lemma.now.clause }
    ensures no { result ≡ false → ¬ Derives (clauses_before clauses.now before.now) lemma.now.chain lemma.now.clause }
    ensures empty { IsTrue result → Agrees table.new [] }
{
    let numbers = lemma.chain.numbers();
    if !run(clauses, before, numbers, table) {
        return false;
    }
    if !take_out(table, lemma.clause.lits()) {
        return false;
    }
    is_clear(clauses, before, numbers, table)
}

/// The clause with this number, where the lemmas follow the clauses.
fn clause_at<'a>(clauses: &'a Clauses, before: &'a [Lemma], number: u32) -> Option<&'a [Lit]>
    ensures value { option_copied result ≡ numbered (clauses_before clauses.now before.now) number }
    ensures order { IfSome result (λ c. IsClause c.now) }
{
    if number == 0 {
        return None;
    }
    let place = number as usize - 1;
    if place < clauses.len() {
        return Some(clauses.get(number).lits());
    }
    let place = place - clauses.len();
    if place < before.len() {
        return Some(before[place].clause.lits());
    }
    None
}

/// Puts what the chain derives into the table. The answer is false where it derives nothing.
fn run(clauses: &Clauses, before: &[Lemma], numbers: &[u32], table: &mut [Option<bool>]) -> bool
    requires empty { Agrees table.old [] }
    requires fits { AllFit (length table.old) (clauses_before clauses.now before.now) }
    ensures yes { IsTrue result → HasDerived (clauses_before clauses.now before.now) numbers.now table.new }
    ensures no { result ≡ false → derived_by (clauses_before clauses.now before.now) numbers.now ≡ None }
{
    let Some((first, rest)) = numbers.split_first() else {
        return false;
    };
    let Some(clause) = clause_at(clauses, before, *first) else {
        return false;
    };
    mark_all(table, clause);
    for number in rest {
        let Some(clause) = clause_at(clauses, before, *number) else {
            return false;
        };
        if !resolve(table, clause) {
            return false;
        }
    }
    true
}

/// Takes the literals of the clause out of the table. The answer is false where the table lacks one of them.
fn take_out(table: &mut [Option<bool>], clause: &[Lit]) -> bool
    requires fits { Fits (length table.old) clause.now }
    requires order { IsClause clause.now }
    ensures yes { IsTrue result → TakesOut table.old table.new clause.now }
    ensures no { result ≡ false → Lacks table.old clause.now }
{
    for lit in clause {
        if !is_marked(table, *lit) {
            return false;
        }
        table[lit.var() as usize] = None;
    }
    true
}

/// Whether the table has no literal of the clauses that the chain names.
fn is_clear(clauses: &Clauses, before: &[Lemma], numbers: &[u32], table: &[Option<bool>]) -> bool
    requires { AllFit (length table.now) (clauses_before clauses.now before.now) }
    ensures yes { IsTrue result → IsClearOfAll table.now (clauses_before clauses.now before.now) numbers.now }
    ensures no { result ≡ false → HasSome table.now }
{
    for number in numbers {
        if let Some(clause) = clause_at(clauses, before, *number) {
            if !is_clear_of_clause(table, clause) {
                return false;
            }
        }
    }
    true
}

/// Whether the table has no literal of the clause.
pub fn is_clear_of_clause(table: &[Option<bool>], clause: &[Lit]) -> bool
    requires { Fits (length table.now) clause.now }
    ensures { result ≡ is_clear_of table.now clause.now }
{
    for lit in clause {
        if is_marked(table, *lit) {
            return false;
        }
    }
    true
}
