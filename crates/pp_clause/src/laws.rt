//! Theorems on derivations, each the clause of a function that does nothing: a caller whose proof needs one calls it.
ghost use Rattle.pp_clause.specs.Laws.{DerivedIsTrue, RefutedIsUnsatisfiable, NewDiffers, ClausesAreFew, NewAreFew};

/// What a chain derives is true wherever the clauses are.
pub fn derived_is_true()
    ensures { DerivedIsTrue }
{}

/// Where a log refutes clauses under assumptions, no assignment makes them all true.
pub fn refuted_is_unsatisfiable()
    ensures { RefutedIsUnsatisfiable }
{}

/// A new lemma differs as a set from each of the clauses before it.
pub fn new_differs()
    ensures { NewDiffers }
{}

/// Over v variables at most 3^v clauses differ as sets.
pub fn clauses_are_few()
    ensures { ClausesAreFew }
{}

/// Over v variables fewer than 3^v lemmas are each new over all clauses before it.
pub fn new_are_few()
    ensures { NewAreFew }
{}
