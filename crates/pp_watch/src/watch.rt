//! A trail over clauses, which propagates units.
ghost use Rattle.std.specs.Prelude.{ℕ, ◌≡◌, ◌≢◌, ◌+◌, ◌-◌, ◌^◌, ◌<◌, ◌≤◌, [], ◌∷◌, ◌++◌, None};
ghost use Rattle.std.specs.Prelude.{length, take, All, IfSome, IfNone, IfOk, OnOk, OnErr};
ghost use Rattle.pp_clause.specs.New.{IsClosed};
ghost use Rattle.pp_trail.specs.Marks.{ArePlaces};
ghost use Rattle.pp_clause.specs.Bound.{IsUpTo};
ghost use Rattle.pp_trail.specs.Trail.{lits, IsTrail, IsFalse, value_in, IsPlaceOf};
ghost use Rattle.pp_watch.specs.Watching.{Grows};

use crate::NoMemory;
use crate::lists::Lists;
use crate::state::State;
use pp_clause::{Clause, Clauses, Lit};
use pp_trail::{Mark, Step, Trail};
use std::alloc::Global;
use std::marker::Model;

/// Clauses, and a trail of literals that are made true one after another, each by a decision or because a clause
/// leaves no other choice.
#[derive(Drop)]
pub struct Watch {
    state: State,
}

impl Model for Watch {
    ghost use Rattle.pp_trail.specs.Trail.{Trail};
    ghost use Rattle.pp_watch.specs.Watching.{IsSound};

    ghost Value = { Trail };

    ghost view = { λ w. w.state.trail };

    ghost invariant = { λ w. IsSound w.state };
}

impl Watch {
    /// The clauses with an empty trail. No variable of the clauses may be above `vars`.
    pub fn over(alloc: Global, clauses: &Clauses, vars: u32) -> Result<Watch, NoMemory>
        requires { All (IsUpTo vars) clauses.now }
        ensures { IfOk result (λ s. s ≡ record { clauses = clauses.now; steps = []; vars = vars }) }
    {
        let trail = Trail::over(alloc, clauses, vars)?;
        let lists = Lists::over(alloc, clauses, vars)?;
        let heads = Vec::with_capacity(alloc, clauses.len())?;
        Ok(Watch {
            state: State {
                trail,
                heads,
                lists,
                levels: Vec::new(alloc),
                visited: 0,
            },
        })
    }

    /// Makes the literal true, without a reason. Its variable may be at most `vars`, and not in the trail.
    pub fn decide(&mut self, lit: Lit)
        requires up_to { lit.var ≤ self.old.vars }
        requires absent { All (λ s. s.lit.var ≢ lit.var) self.old.steps }
        ensures value { self.new ≡ record self.old
            { steps = self.old.steps ++ record { lit = lit; reason = None } ∷ [] } }
        ensures room { length self.old.steps < self.old.vars }
    {
        self.state.trail.decide(lit);
    }

    /// Keeps the first `len` steps of the trail.
    pub fn undo(&mut self, len: usize)
        requires { len ≤ length self.old.steps }
        ensures { self.new ≡ record self.old { steps = take len self.old.steps } }
    {
        self.state.undo(len);
    }

    /// Adds a clause, and answers its number. The trail stays. On `NoMemory` nothing has changed.
    pub fn add(&mut self, clause: Clause) -> Result<u32, NoMemory>
        requires up_to { IsUpTo self.old.vars clause }
        requires few { length self.old.clauses < 2 ^ 32 - 1 }
        ensures ok { OnOk result (self.new ≡ record self.old { clauses = self.old.clauses ++ clause ∷ [] }) }
        ensures err { OnErr result (self.new ≡ self.old) }
        ensures number { IfOk result (λ n. n ≡ length self.old.clauses + 1) }
    {
        let number = self.state.trail.add(clause)?;
        Ok(number)
    }

    /// Makes literals true that clauses leave no other choice for, as long as there are such. The clauses and the steps
    /// stay, and each new step has a reason. `None` says that then no clause is false, and none has only false literals
    /// but for an open one; otherwise the answer is the number of a false clause. On `NoMemory` steps may have been
    /// made, but nothing is said of them.
    pub fn propagate(&mut self) -> Result<Option<u32>, NoMemory>
        ensures grows { OnOk result (Grows self.old self.new) }
        ensures closed { IfOk result (λ o. IfNone o (IsClosed self.new.clauses (lits self.new.steps))) }
        ensures conflict { IfOk result (λ o. IfSome o (IsFalse self.new.clauses (lits self.new.steps))) }
    {
        match self.state.close() {
            Ok(conflict) => Ok(conflict),
            Err(error) => {
                self.state.forget();
                Err(error)
            }
        }
    }

    /// The clauses of `over`, and then those of `add`, in order. No variable is above `vars`.
    pub fn clauses(&self) -> &Clauses
        ensures value { result.now ≡ self.now.clauses }
        ensures up_to { All (IsUpTo self.now.vars) self.now.clauses }
    {
        self.state.trail.clauses()
    }

    /// The steps, in the order in which they were made. No variable stands there twice.
    pub fn trail(&self) -> &[Step]
        ensures value { result.now ≡ self.now.steps }
        ensures trail { IsTrail self.now.clauses self.now.vars self.now.steps }
    {
        self.state.trail.steps()
    }

    /// How each variable stands in the trail.
    pub fn places(&self) -> &[Option<Mark>]
        ensures places { ArePlaces result.now self.now.steps }
        ensures every { length result.now ≡ self.now.vars + 1 }
    {
        self.state.trail.places()
    }

    /// The greatest variable that may stand in the clauses and the trail.
    pub fn vars(&self) -> u32
        ensures { result ≡ self.now.vars }
    {
        self.state.trail.vars()
    }

    /// Whether the trail makes the literal true, or false. `None` where its variable isn't in the trail.
    pub fn value(&self, lit: Lit) -> Option<bool>
        ensures { result ≡ value_in (lits self.now.steps) lit }
    {
        self.state.trail.value(lit)
    }

    /// The place of the variable's step in the trail, from 0. `None` where the variable isn't in the trail.
    pub fn place(&self, var: u32) -> Option<u32>
        ensures some { IfSome result (IsPlaceOf self.now.steps var) }
        ensures none { IfNone result (All (λ s. s.lit.var ≢ var) self.now.steps) }
    {
        self.state.trail.place(var)
    }
}
