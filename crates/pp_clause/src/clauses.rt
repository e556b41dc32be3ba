//! Lists of clauses, numbered from 1.

ghost use Rattle.std.specs.Prelude.{◌≡◌, ◌-◌, ◌^◌, ◌<◌, ◌≤◌, ◌↔◌, [], ◌∷◌, ◌++◌, length, slice_get, Some, IsTrue, IfOk};
ghost use Rattle.std.specs.Prelude.{OnOk, OnErr, All};
ghost use Rattle.pp_clause.specs.Literal.{lit_value};
ghost use Rattle.pp_clause.specs.Clause.{IsClause, clause_value, clauses_value};
ghost use Rattle.pp_clause.specs.Assignment.{assigned};

use crate::NoMemory;
use crate::assignment::Assignment;
use crate::clause::Clause;
use crate::lit::Lit;
use std::alloc::Global;
use std::marker::Model;

/// Clauses, numbered from 1 in the order in which they were added.
#[derive(Drop)]
pub struct Clauses {
    items: Vec<Clause>,
}

impl Model for Clauses {
    ghost use Rattle.std.specs.Prelude.{List, All, ◌<◌, ◌^◌, vec_len};
    ghost use Rattle.pp_clause.specs.Literal.{Literal};
    ghost use Rattle.pp_clause.specs.Clause.{IsClause};

    ghost Value = { List (List Literal) };

    ghost view = { λ c. c.items.items };

    ghost invariant = { λ c. (vec_len c.items < 2 ^ 32) × All IsClause c.items.items };
}

impl Clauses {
    /// No clauses.
    pub fn new(alloc: Global) -> Clauses
        ensures { result ≡ [] }
    {
        Clauses {
            items: Vec::new(alloc),
        }
    }

    /// No clauses, with room for so many.
    pub fn with_capacity(alloc: Global, clauses: usize) -> Result<Clauses, NoMemory>
        ensures { IfOk result (λ r. r ≡ []) }
    {
        let items = Vec::with_capacity(alloc, clauses)?;
        Ok(Clauses { items })
    }

    /// How many clauses there are: the number of the last one.
    pub fn len(&self) -> usize
        ensures value { result ≡ length self.now }
        ensures small { result < 2 ^ 32 }
        ensures order { All IsClause self.now }
    {
        self.items.len()
    }

    /// Whether there are none.
    pub fn is_empty(&self) -> bool
        ensures { IsTrue result ↔ (self.now ≡ []) }
    {
        self.items.is_empty()
    }

    /// Adds a clause, whose number is the new length. On `NoMemory` nothing has changed.
    pub fn add(&mut self, clause: Clause) -> Result<(), NoMemory>
        requires { length self.old < 2 ^ 32 - 1 }
        ensures ok { OnOk result (self.new ≡ self.old ++ clause ∷ []) }
        ensures err { OnErr result (self.new ≡ self.old) }
    {
        // tells that its literals are in order: nothing else is asked of it here
        let _lits = clause.lits();
        self.items.push(clause)?;
        Ok(())
    }

    /// The clause with this number.
    pub fn get(&self, number: u32) -> &Clause
        requires low { 1 ≤ number }
        requires high { number ≤ length self.now }
        ensures { slice_get self.now (number - 1) ≡ Some result.now }
    {
        &self.items[number as usize - 1]
    }

    /// Whether the assignment makes each clause true.
    pub fn holds(&self, a: &Assignment) -> bool
        ensures { result ≡ clauses_value (assigned a.now) self.now }
    {
        self.items.iter().all(|clause| holds_clause(clause, a))
    }
}

/// Whether the assignment makes a literal of the clause true.
fn holds_clause(clause: &Clause, a: &Assignment) -> bool
    ensures { result ≡ clause_value (assigned a.now) clause.now }
{
    clause.lits().iter().any(|lit| holds_lit(*lit, a))
}

/// Whether the assignment makes the literal true.
fn holds_lit(lit: Lit, a: &Assignment) -> bool
    ensures { result ≡ lit_value (assigned a.now) lit }
{
    let value = a.value(lit.var());
    if lit.is_positive() { value } else { !value }
}
