//! The solver's loop.
ghost use Rattle.std.specs.Prelude.{ℕ, ◌≡◌, ◌+◌, ◌<◌, ◌≤◌, ◌^◌, true, List, All, length, IfOk};
ghost use Rattle.std.specs.List.{list_all};
ghost use Rattle.pp_clause.specs.Literal.{lit_value};
ghost use Rattle.pp_clause.specs.Clause.{HasBoth, clauses_value};
ghost use Rattle.pp_clause.specs.Assignment.{assigned};
ghost use Rattle.pp_clause.specs.Laws.{IsOver};
ghost use Rattle.pp_clause.specs.Log.{Refutes};
ghost use Rattle.pp_clause.specs.New.{IsSpentLog};
ghost use Rattle.pp_cdcl.specs.Answer.{IfSat, IfUnsat, IfSpent, IsSpent};

use crate::NoMemory;
use crate::answer::Answer;
use crate::propagate::step;
use crate::search::{Problem, Search};
use pp_clause::{Clauses, Lit};
use std::alloc::Global;

/// Looks for an assignment that makes the clauses and the assumptions true, and learns at most `lemmas` lemmas for it.
/// It decides the variables of `first` before all others; any list will do, and it says nothing of the answer.
///
/// There must be room for a lemma, the clauses and the lemmas together must be fewer than 2^32, and no assumption may
/// be the negation of another. One of the three answers always comes, except for want of memory; `Spent` never comes
/// where the clauses have at most 20 variables, v of them, and `lemmas` is at least 3^v.
pub fn solve(
    alloc: Global,
    clauses: &Clauses,
    assumptions: &[Lit],
    first: &[u32],
    lemmas: u64,
) -> Result<Answer, NoMemory>
    requires some { 1 ≤ lemmas }
    requires fit { length clauses.now + lemmas < 2 ^ 32 }
    requires apart { ¬ HasBoth assumptions.now }

    // an assignment makes all clauses and all assumptions true
    ensures sat_clauses { IfOk result (λ a. IfSat a (λ s. clauses_value (assigned s) clauses.now ≡ true)) }
    ensures sat_assumptions { IfOk result
        (λ a. IfSat a (λ s. list_all (lit_value (assigned s)) assumptions.now ≡ true)) }

    // a log of few lemmas refutes
    ensures unsat_few { IfOk result (λ a. IfUnsat a (λ log. length log ≤ lemmas)) }
    ensures unsat_refutes { IfOk result (λ a. IfUnsat a (Refutes clauses.now assumptions.now)) }

    // a log of exactly the lemmas, each new, and none of them refutes
    ensures spent { IfOk result (λ a. IfSpent a (IsSpentLog clauses.now assumptions.now lemmas)) }
    ensures never { IfOk result (λ a. (variables : List ℕ) → length variables ≤ 20 → All (IsOver variables) clauses.now
        → 3 ^ length variables ≤ lemmas → ¬ IsSpent a) }
{
    let problem = Problem {
        clauses,
        assumptions,
        first,
        lemmas,
    };
    let mut search = Search::new(alloc, problem)?;
    loop {
        if let Some(answer) = step(alloc, problem, &mut search)? {
            return Ok(answer);
        }
    }
}
