//! A trail over clauses.
ghost use Rattle.std.specs.Prelude.{ℕ, ◌≡◌, ◌≢◌, ◌+◌, ◌-◌, ◌^◌, ◌<◌, ◌≤◌, [], ◌∷◌, ◌++◌, None};
ghost use Rattle.std.specs.Prelude.{length, take, All, IfSome, IfNone, IfOk, OnOk, OnErr};
ghost use Rattle.pp_clause.specs.Literal.{opposite};
ghost use Rattle.pp_clause.specs.Clause.{has};
ghost use Rattle.pp_clause.specs.Bound.{IsUpTo};
ghost use Rattle.pp_trail.specs.Marks.{mark_from, truth_of, ArePlaces};
ghost use Rattle.pp_trail.specs.Trail.{lits, IsReason, IsTrail, value_in, IsPlaceOf};

use crate::NoMemory;
use crate::marks::Mark;
use crate::step::Step;
use crate::truth::Truth;
use pp_clause::{Clause, Clauses, Lit};
use std::alloc::Global;
use std::marker::Model;

/// Clauses, and a trail of literals that are made true one after another, each by a decision or because a clause
/// leaves no other choice.
#[derive(Drop)]
pub struct Trail {
    clauses: Clauses,
    steps: Vec<Step>,
    // by variable; there are one more than the greatest variable
    marks: Vec<Option<Mark>>,
    // by literal: propagation reads these, and they take less memory than the marks
    truths: Vec<Truth>,
    vars: u32,
}

impl Model for Trail {
    ghost use Rattle.pp_trail.specs.Trail.{Trail};

    ghost Value = { Trail };

    ghost view = { λ s. record { clauses = s.clauses; steps = s.steps.items; vars = s.vars } };

    ghost use Rattle.std.specs.Prelude.{◌≡◌, ◌+◌, ◌≤◌, All, vec_len, vec_capacity};
    ghost use Rattle.pp_trail.specs.Marks.{IsSound};

    ghost invariant = { λ s. IsSound s.clauses s.steps.items s.marks.items s.truths.items s.vars
        (vec_capacity s.steps) };
}

impl Trail {
    /// The clauses with an empty trail. No variable of the clauses may be above `vars`.
    pub fn over(alloc: Global, clauses: &Clauses, vars: u32) -> Result<Trail, NoMemory>
        requires { All (IsUpTo vars) clauses.now }
        ensures { IfOk result (λ s. s ≡ record { clauses = clauses.now; steps = []; vars = vars }) }
    {
        let clauses = copy_of(alloc, clauses)?;
        let steps = Vec::with_capacity(alloc, vars as usize)?;
        let marks = vec![in alloc; None; vars as usize + 1]?;
        let truths = vec![in alloc; Truth::Open; 2 * vars as usize + 2]?;
        Ok(Trail {
            clauses,
            steps,
            marks,
            truths,
            vars,
        })
    }

    /// Makes the literal true, without a reason. Its variable may be at most `vars`, and not in the trail.
    pub fn decide(&mut self, lit: Lit)
        requires up_to { lit.var ≤ self.old.vars }
        requires absent { All (λ s. s.lit.var ≢ lit.var) self.old.steps }
        ensures value { self.new ≡ record self.old
            { steps = self.old.steps ++ record { lit = lit; reason = None } ∷ [] } }
        ensures room { length self.old.steps < self.old.vars }
    {
        self.push(Step { lit, reason: None });
    }

    /// Keeps the first `len` steps of the trail.
    pub fn undo(&mut self, len: usize)
        requires { len ≤ length self.old.steps }
        ensures { self.new ≡ record self.old { steps = take len self.old.steps } }
    {
        while len < self.steps().len() {
            self.pop();
        }
    }

    /// Adds a clause, and answers its number. The steps stay. On `NoMemory` nothing has changed.
    pub fn add(&mut self, clause: Clause) -> Result<u32, NoMemory>
        requires up_to { IsUpTo self.old.vars clause }
        requires few { length self.old.clauses < 2 ^ 32 - 1 }
        ensures ok { OnOk result (self.new ≡ record self.old { clauses = self.old.clauses ++ clause ∷ [] }) }
        ensures err { OnErr result (self.new ≡ self.old) }
        ensures number { IfOk result (λ n. n ≡ length self.old.clauses + 1) }
    {
        self.clauses.add(clause)?;
        Ok(self.clauses.len() as u32)
    }

    /// The clauses of `over`, and then those of `add`, in order. No variable is above `vars`.
    pub fn clauses(&self) -> &Clauses
        ensures value { result.now ≡ self.now.clauses }
        ensures up_to { All (IsUpTo self.now.vars) self.now.clauses }
    {
        &self.clauses
    }

    /// The steps, in the order in which they were made. No variable stands there twice.
    pub fn steps(&self) -> &[Step]
        ensures value { result.now ≡ self.now.steps }
        ensures trail { IsTrail self.now.clauses self.now.vars self.now.steps }
    {
        self.steps.as_slice()
    }

    /// The greatest variable that may stand in the clauses and the trail.
    pub fn vars(&self) -> u32
        ensures { result ≡ self.now.vars }
    {
        self.vars
    }

    /// Whether the trail makes the literal true, or false. `None` where its variable isn't in the trail.
    pub fn value(&self, lit: Lit) -> Option<bool>
        ensures { result ≡ value_in (lits self.now.steps) lit }
    {
        match self.truth(lit) {
            Truth::Open => None,
            Truth::True => Some(true),
            Truth::False => Some(false),
        }
    }

    /// Whether the trail makes the literal true.
    pub fn is_true(&self, lit: Lit) -> bool
        ensures { result ≡ has (lits self.now.steps) lit }
    {
        matches!(self.truth(lit), Truth::True)
    }

    /// Whether the trail makes the literal false.
    pub fn is_false(&self, lit: Lit) -> bool
        ensures { result ≡ has (lits self.now.steps) (opposite lit) }
    {
        matches!(self.truth(lit), Truth::False)
    }

    /// The place of the variable's step in the trail, from 0. `None` where the variable isn't in the trail.
    pub fn place(&self, var: u32) -> Option<u32>
        ensures some { IfSome result (IsPlaceOf self.now.steps var) }
        ensures none { IfNone result (All (λ s. s.lit.var ≢ var) self.now.steps) }
        ensures trail { IsTrail self.now.clauses self.now.vars self.now.steps }
    {
        match self.mark(var) {
            Some(mark) => Some(mark.place),
            None => None,
        }
    }

    /// How each variable stands in the trail.
    pub fn places(&self) -> &[Option<Mark>]
        ensures places { ArePlaces result.now self.now.steps }
        ensures every { length result.now ≡ self.now.vars + 1 }
    {
        self.marks.as_slice()
    }

    /// How the variable stands in the trail.
    fn mark(&self, var: u32) -> Option<Mark>
        ensures value { result ≡ mark_from 0 self.now.steps var }
        ensures trail { IsTrail self.now.clauses self.now.vars self.now.steps }
    {
        if (var as usize) < self.marks.len() {
            self.marks[var as usize]
        } else {
            None
        }
    }

    /// What the trail says of the literal.
    fn truth(&self, lit: Lit) -> Truth
        ensures value { truth_of result ≡ value_in (lits self.now.steps) lit }
        ensures trail { IsTrail self.now.clauses self.now.vars self.now.steps }
    {
        let index = lit.index();
        if index < self.truths.len() {
            self.truths[index]
        } else {
            Truth::Open
        }
    }

    /// Adds a step. Its variable may be at most `vars`, and not in the trail; a reason must leave no other choice.
    /// There is room for it: there are no more steps than variables.
    pub fn push(&mut self, step: Step)
        requires up_to { step.lit.var ≤ self.old.vars }
        requires absent { All (λ s. s.lit.var ≢ step.lit.var) self.old.steps }
        requires reason { IfSome step.reason (IsReason self.old.clauses (lits self.old.steps) step.lit) }
        ensures value { self.new ≡ record self.old { steps = self.old.steps ++ step ∷ [] } }
        ensures room { length self.old.steps < self.old.vars }
    {
        let lit = step.lit;
        let var = lit.var();
        let itself = lit.index();
        let opposite = lit.negated().index();
        let mark = Mark {
            positive: lit.is_positive(),
            place: self.steps.len() as u32,
        };
        let pushed = self.steps.push(step);
        prove!(pushed.is_ok());
        let _ = pushed;
        self.marks[var as usize] = Some(mark);
        self.truths[itself] = Truth::True;
        self.truths[opposite] = Truth::False;
    }

    /// Takes the last step away.
    fn pop(&mut self)
        requires { 0 < length self.old.steps }
        ensures { self.new ≡ record self.old { steps = take (length self.old.steps - 1) self.old.steps } }
    {
        if let Some(step) = self.steps.pop() {
            let lit = step.lit;
            let var = lit.var();
            let itself = lit.index();
            let opposite = lit.negated().index();
            self.marks[var as usize] = None;
            self.truths[itself] = Truth::Open;
            self.truths[opposite] = Truth::Open;
        }
    }
}

/// The same clauses once more.
fn copy_of(alloc: Global, clauses: &Clauses) -> Result<Clauses, NoMemory>
    ensures { IfOk result (λ c. c ≡ clauses.now) }
{
    let mut copy = Clauses::with_capacity(alloc, clauses.len())?;
    for place in 0..clauses.len() {
        let clause = clauses.get(place as u32 + 1).copy(alloc)?;
        copy.add(clause)?;
    }
    Ok(copy)
}
