//! A solver at work.
ghost use Rattle.std.specs.Prelude.{◌≡◌, ◌+◌, ◌≤◌, IfOk};
ghost use Rattle.pp_cdcl.specs.Invariant.{Invariant};

use crate::NoMemory;
use crate::order::Order;
use pp_clause::{Clauses, Lit, Log, greatest_var, raised};
use pp_learn::Analysis;
use pp_watch::Watch;
use std::alloc::Global;
use std::mem;

/// What is to be solved.
#[derive(Clone, Copy)]
pub struct Problem<'a> {
    /// The clauses that are to be made true.
    pub clauses: &'a Clauses,
    /// The literals that are to be true besides.
    pub assumptions: &'a [Lit],
    /// The variables that are decided before all others.
    pub first: &'a [u32],
    /// How many lemmas are allowed.
    pub lemmas: u64,
}

/// How far a solver has come.
#[derive(Drop)]
pub struct Search {
    /// The given clauses and then those of the lemmas, and the trail.
    pub watch: Watch,
    /// The lemmas so far.
    pub log: Log,
    /// The length of the trail at which all assumptions were true, if that is so. Before that only assumptions are
    /// decided.
    pub base: Option<usize>,
    /// In which order variables are decided.
    pub order: Order,
    /// What conflicts are analyzed with.
    pub analysis: Analysis,
}

impl Search {
    /// A solver that has done nothing yet.
    pub fn new(alloc: Global, problem: Problem<'_>) -> Result<Search, NoMemory>
        requires { 1 ≤ problem.lemmas }
        ensures invariant { IfOk result (λ s. Invariant problem.entry.clauses.now problem.entry.assumptions.now
            problem.entry.lemmas s.watch s.log s.base) }
        ensures sized { IfOk result (λ s. s.analysis ≡ s.watch.vars + 1) }
    {
        let vars = raised(greatest_var(problem.clauses), problem.assumptions);
        let watch = Watch::over(alloc, problem.clauses, vars)?;
        let order = Order::new(alloc, vars, problem.first)?;
        let analysis = Analysis::new(alloc, vars)?;
        Ok(Search {
            watch,
            log: Log::new(alloc),
            base: None,
            order,
            analysis,
        })
    }

    /// Takes the log out, at the end.
    pub fn take_log(&mut self, alloc: Global) -> Log
        ensures log { result ≡ self.old.log }
        ensures watch { self.new.watch ≡ self.old.watch }
    {
        mem::replace(&mut self.log, Log::new(alloc))
    }
}
