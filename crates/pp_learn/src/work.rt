//! What conflict analysis works with.
ghost use Rattle.std.specs.Prelude.{◌≡◌, ◌+◌, ◌≤◌, true, length, take, IfOk, OnOk};
ghost use Rattle.pp_clause.specs.Clause.{has};
ghost use Rattle.pp_clause.specs.Derivation.{Derives};
ghost use Rattle.pp_clause.specs.Log.{all_negated};
ghost use Rattle.pp_clause.specs.New.{IsOpen, IsClosed, IsNew};
ghost use Rattle.pp_trail.specs.Trail.{lits, IsFalse};
ghost use Rattle.pp_trail.specs.Marks.{ArePlaces};
ghost use Rattle.pp_learn.specs.Seen.{AreMet, AreBlank};
ghost use Rattle.pp_learn.specs.Reached.{IsTrailFor, AreForced};
ghost use Rattle.pp_learn.specs.Conflict.{decisions, IsBack, ReachesFirstPoint};

use crate::NoMemory;
use crate::collecting::{back_to, lemma_of};
use crate::learnt::Learnt;
use crate::minimizing::minimize_before;
use crate::redundant::Plan;
use crate::resolving::begin;
use crate::seen::{blank, blank_all};
use crate::walking::{first_uip, to_decisions};
use pp_clause::{Clauses, Lemma, Lit};
use pp_trail::{Mark, Step};
use std::alloc::Global;

/// What conflict analysis works with. Between conflicts no variable is marked.
#[derive(Drop)]
pub struct Work {
    /// By variable, whether it is marked as seen.
    pub seen: Vec<bool>,
    /// The variables that were marked since the last conflict.
    pub met: Vec<u32>,
    /// How many of them were met before minimization.
    pub resolved: usize,
    /// The chain so far.
    pub chain: Vec<u32>,
    /// The literals of the lemma.
    pub literals: Vec<Lit>,
    /// What minimization takes away.
    pub plan: Plan,
}

impl Work {
    /// For the variables up to this one.
    pub fn new(alloc: Global, vars: u32) -> Result<Work, NoMemory>
        ensures len { IfOk result (λ w. length w.seen.items ≡ vars + 1) }
        ensures blank { IfOk result (λ w. AreBlank w.seen.items) }
    {
        let seen = vec![in alloc; false; vars as usize + 1]?;
        let plan = Plan::new(alloc, vars)?;
        Ok(Work {
            seen,
            met: Vec::new(alloc),
            resolved: 0,
            chain: Vec::new(alloc),
            literals: Vec::new(alloc),
            plan,
        })
    }

    /// Learns a lemma from the clause with the number `conflict`, which the trail makes false. Variables stay marked.
    pub fn learn(
        &mut self,
        alloc: Global,
        clauses: &Clauses,
        trail: &[Step],
        places: &[Option<Mark>],
        conflict: u32,
        start: u32,
    ) -> Result<Learnt, NoMemory>
        requires trail { IsTrailFor clauses.now trail.now self.old.seen.items }
        requires places { ArePlaces places.now trail.now }
        requires every { length places.now ≡ length self.old.seen.items }
        requires blank { AreBlank self.old.seen.items }
        requires conflict { IsFalse clauses.now (lits trail.now) conflict }
        requires later { ¬ IsFalse clauses.now (lits (take start trail.now)) conflict }
        requires forced { AreForced trail.now start }
        ensures len { length self.new.seen.items ≡ length self.old.seen.items }
        ensures met { OnOk result (AreMet self.new.seen.items self.new.met.items) }
        ensures derives { IfOk result (λ r. Derives clauses.now r.lemma.chain r.lemma.clause) }
        ensures negated { IfOk result (λ r. all_negated (lits trail.now) r.lemma.clause ≡ true) }
        ensures held { IfOk result (λ r. has r.lemma.clause r.literal ≡ true) }
        ensures is_open { IfOk result (λ r. IsOpen (lits (take start trail.now)) r.literal) }
        ensures first { IfOk result (λ r. ReachesFirstPoint clauses.now (lits (take start trail.now)) r.literal
            r.lemma.chain) }
        ensures new { IfOk result (λ r. IsClosed clauses.now (lits (take start trail.now))
            → IsNew clauses.now r.lemma.clause) }
        ensures within { IfOk result (λ r. r.back ≤ start) }
        ensures back { IfOk result (λ r. IsBack trail.now r.lemma.clause r.literal r.back) }
    {
        let first = start as usize;
        let seen = self.seen.as_mut_slice();
        let met = &mut self.met;
        let chain = &mut self.chain;
        begin(clauses, trail, conflict, seen, met, chain)?;
        let point = first_uip(clauses, trail, first, seen, met, chain)?;
        self.resolved = met.len();
        self.plan.make(clauses, trail, places, seen, met)?;
        let order = self.plan.order();
        minimize_before(clauses, trail, places, first, order, seen, met, chain)?;
        let literals = &mut self.literals;
        let lemma = lemma_of(alloc, clauses, trail, places, seen, met, chain, literals)?;
        let back = back_to(clauses, trail, places, seen, met, first);
        Ok(Learnt {
            lemma,
            literal: trail[point].lit.negated(),
            back: back as u32,
        })
    }

    /// Derives from the clause with the number `conflict`, which the trail makes false, a clause whose literals are
    /// negations of decisions. Variables stay marked.
    pub fn refute(
        &mut self,
        alloc: Global,
        clauses: &Clauses,
        trail: &[Step],
        places: &[Option<Mark>],
        conflict: u32,
    ) -> Result<Lemma, NoMemory>
        requires trail { IsTrailFor clauses.now trail.now self.old.seen.items }
        requires places { ArePlaces places.now trail.now }
        requires every { length places.now ≡ length self.old.seen.items }
        requires blank { AreBlank self.old.seen.items }
        requires conflict { IsFalse clauses.now (lits trail.now) conflict }
        ensures len { length self.new.seen.items ≡ length self.old.seen.items }
        ensures met { OnOk result (AreMet self.new.seen.items self.new.met.items) }
        ensures derives { IfOk result (λ m. Derives clauses.now m.chain m.clause) }
        ensures decided { IfOk result (λ m. all_negated (decisions trail.now) m.clause ≡ true) }
    {
        let seen = self.seen.as_mut_slice();
        let met = &mut self.met;
        let chain = &mut self.chain;
        begin(clauses, trail, conflict, seen, met, chain)?;
        to_decisions(clauses, trail, seen, met, chain)?;
        let literals = &mut self.literals;
        lemma_of(alloc, clauses, trail, places, seen, met, chain, literals)
    }

    /// Takes all marks away, by the variables that were met.
    pub fn blank(&mut self)
        requires { AreMet self.old.seen.items self.old.met.items }
        ensures len { length self.new.seen.items ≡ length self.old.seen.items }
        ensures blank { AreBlank self.new.seen.items }
    {
        blank(self.seen.as_mut_slice(), self.met.as_slice());
    }

    /// Takes all marks away, one by one.
    pub fn blank_all(&mut self)
        ensures len { length self.new.seen.items ≡ length self.old.seen.items }
        ensures blank { AreBlank self.new.seen.items }
    {
        blank_all(self.seen.as_mut_slice());
    }

    /// The variables that were met before minimization.
    pub fn met(&self) -> &[u32]
        ensures { result.now ≡ take self.now.resolved self.now.met.items }
    {
        &self.met[..self.resolved.min(self.met.len())]
    }
}
