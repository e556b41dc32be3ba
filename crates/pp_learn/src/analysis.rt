//! Conflict analysis, from one conflict to the next.
ghost use Rattle.std.specs.Prelude.{◌≡◌, ◌+◌, ◌-◌, ◌≤◌, true, length, take, IfOk};
ghost use Rattle.pp_clause.specs.Clause.{has};
ghost use Rattle.pp_clause.specs.Derivation.{Derives};
ghost use Rattle.pp_clause.specs.Log.{all_negated};
ghost use Rattle.pp_clause.specs.New.{IsOpen, IsClosed, IsNew};
ghost use Rattle.pp_trail.specs.Trail.{lits, IsFalse, IsTrail};
ghost use Rattle.pp_trail.specs.Marks.{ArePlaces};
ghost use Rattle.pp_learn.specs.Reached.{AreForced};
ghost use Rattle.pp_learn.specs.Conflict.{decisions, IsBack, ReachesFirstPoint};

use crate::NoMemory;
use crate::learnt::Learnt;
use crate::work::Work;
use pp_clause::{Clauses, Lemma};
use pp_trail::{Mark, Step};
use std::alloc::Global;
use std::marker::Model;

/// Conflict analysis over trails with this many variables and one more. What it works with is kept from one conflict to
/// the next, so that a conflict takes memory for its lemma alone.
#[derive(Drop)]
pub struct Analysis {
    work: Work,
}

impl Model for Analysis {
    ghost use Rattle.std.specs.Prelude.{ℕ, length};
    ghost use Rattle.pp_learn.specs.Seen.{AreBlank};

    ghost Value = { ℕ };

    ghost view = { λ a. length a.work.seen.items };

    ghost invariant = { λ a. AreBlank a.work.seen.items };
}

impl Analysis {
    /// Analysis over trails with variables up to this one.
    pub fn new(alloc: Global, vars: u32) -> Result<Analysis, NoMemory>
        ensures { IfOk result (λ a. a ≡ vars + 1) }
    {
        let work = Work::new(alloc, vars)?;
        Ok(Analysis { work })
    }

    /// Learns a lemma from the clause with the number `conflict`, which the trail makes false. Of its literals one
    /// alone was made false by the steps from `start` on, the last decision, after which each step has a reason: the
    /// lemma is new where the steps before are closed.
    pub fn learn(
        &mut self,
        alloc: Global,
        clauses: &Clauses,
        trail: &[Step],
        places: &[Option<Mark>],
        conflict: u32,
        start: u32,
    ) -> Result<Learnt, NoMemory>
        requires trail { IsTrail clauses.now (self.old - 1) trail.now }
        requires places { ArePlaces places.now trail.now }
        requires every { length places.now ≡ self.old }
        requires conflict { IsFalse clauses.now (lits trail.now) conflict }
        requires later { ¬ IsFalse clauses.now (lits (take start trail.now)) conflict }
        requires forced { AreForced trail.now start }
        ensures same { self.new ≡ self.old }
        ensures derives { IfOk result (λ r. Derives clauses.now r.lemma.chain r.lemma.clause) }
        ensures negated { IfOk result (λ r. all_negated (lits trail.now) r.lemma.clause ≡ true) }

        // the literal
        ensures held { IfOk result (λ r. has r.lemma.clause r.literal ≡ true) }
        ensures is_open { IfOk result (λ r. IsOpen (lits (take start trail.now)) r.literal) }
        ensures first { IfOk result (λ r. ReachesFirstPoint clauses.now (lits (take start trail.now)) r.literal
            r.lemma.chain) }
        ensures new { IfOk result (λ r. IsClosed clauses.now (lits (take start trail.now))
            → IsNew clauses.now r.lemma.clause) }

        // the others
        ensures within { IfOk result (λ r. r.back ≤ start) }
        ensures back { IfOk result (λ r. IsBack trail.now r.lemma.clause r.literal r.back) }
    {
        match self
            .work
            .learn(alloc, clauses, trail, places, conflict, start)
        {
            Ok(learnt) => {
                self.work.blank();
                Ok(learnt)
            }
            Err(error) => {
                self.work.blank_all();
                Err(error)
            }
        }
    }

    /// Derives from the clause with the number `conflict`, which the trail makes false, a clause whose literals are
    /// negations of decisions.
    pub fn refute(
        &mut self,
        alloc: Global,
        clauses: &Clauses,
        trail: &[Step],
        places: &[Option<Mark>],
        conflict: u32,
    ) -> Result<Lemma, NoMemory>
        requires trail { IsTrail clauses.now (self.old - 1) trail.now }
        requires places { ArePlaces places.now trail.now }
        requires every { length places.now ≡ self.old }
        requires conflict { IsFalse clauses.now (lits trail.now) conflict }
        ensures same { self.new ≡ self.old }
        ensures derives { IfOk result (λ m. Derives clauses.now m.chain m.clause) }
        ensures decided { IfOk result (λ m. all_negated (decisions trail.now) m.clause ≡ true) }
    {
        match self.work.refute(alloc, clauses, trail, places, conflict) {
            Ok(lemma) => {
                self.work.blank();
                Ok(lemma)
            }
            Err(error) => {
                self.work.blank_all();
                Err(error)
            }
        }
    }

    /// The variables that the last lemma was resolved from, which are worth a bump.
    pub fn met(&self) -> &[u32] {
        self.work.met()
    }
}
