//! Laws of runs: what search, proof and induction need of evaluation.
//!
//! Each function does nothing: its contract is a law about the definitions of `pp_prog` and `pp_eval`, which
//! `specs/Laws` states.
#![tactic(auto)]

ghost use Rattle.pp_run_laws.specs.Laws.{AnsweredCallsSuffice, CallsAreRuns, DependOnCallees};
ghost use Rattle.pp_run_laws.specs.Laws.{MeasuresEnd, MeasuresKeepSorts, NestedNeverDeep};
ghost use Rattle.pp_run_laws.specs.Laws.{OneFuelServes};

/// An expression depends only on the functions that it calls, and a run on those that its function calls. It does
/// nothing: its contract is the law.
pub fn depend_on_callees()
    ensures { DependOnCallees }
{}

/// One fuel serves finitely many runs, where each has one. It does nothing: its contract is the law.
pub fn one_fuel_serves()
    ensures { OneFuelServes }
{}

/// What a call comes to, from what the run of the function comes to. It does nothing: its contract is the law.
pub fn calls_are_runs()
    ensures { CallsAreRuns }
{}

/// A function without recursion is never out of fuel with the depth of its call tree. It does nothing: its contract is
/// the law.
pub fn nested_never_deep()
    ensures { NestedNeverDeep }
{}

/// A run is sound as far as those calls are answered that it can make: what is known of a call may depend on the
/// function and on the arguments. It does nothing: its contract is the law.
pub fn answered_calls_suffice()
    ensures { AnsweredCallsSuffice }
{}

/// Proper subtrees are lower, and no list of measure values goes down for ever. It does nothing: its contract is the
/// law.
pub fn measures_end()
    ensures { MeasuresEnd }
{}

/// The measure values of a frame have the sorts of the function's measure. It does nothing: its contract is the law.
pub fn measures_keep_sorts()
    ensures { MeasuresKeepSorts }
{}
