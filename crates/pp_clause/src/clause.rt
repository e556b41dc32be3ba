//! Clauses: sets of literals, kept in ascending order.

ghost use Rattle.std.specs.Prelude.{ℕ, ◌≡◌, ◌<◌, ◌≤◌, ◌↔◌, Bool, true, IsTrue, IfOk, IfNone, IfSome};
ghost use Rattle.pp_clause.specs.Literal.{Literal};
ghost use Rattle.pp_clause.specs.Clause.{HasBoth, SameLiterals, IsClause, clause_value, IsInOrder};

use crate::NoMemory;
use crate::lit::Lit;
use smallvec::SmallVec;
use std::alloc::Global;
use std::marker::Model;

/// A finite set of literals, without a literal and its negation.
#[derive(Drop)]
pub struct Clause {
    lits: SmallVec<Lit, 4>,
}

impl Model for Clause {
    ghost use Rattle.std.specs.Prelude.{List};
    ghost use Rattle.pp_clause.specs.Literal.{Literal};
    ghost use Rattle.pp_clause.specs.Clause.{IsClause};

    ghost Value = { List Literal };

    ghost view = { λ c. c.lits.items };

    ghost invariant = { λ c. IsClause c.lits.items };
}

impl Clause {
    /// The clause of these literals. Doubled literals are dropped, and the others stand in ascending order of variable.
    ///
    /// `None` exactly where some literal and its negation both stand there; such a list is true under every assignment.
    pub fn of(alloc: Global, lits: &[Lit]) -> Result<Option<Clause>, NoMemory>
        ensures none { IfOk result (λ o. IfNone o (HasBoth lits.now)) }
        ensures always { IfOk result (λ o. IfNone o ((s : ℕ → Bool) → clause_value s lits.now ≡ true)) }
        ensures apart { IfOk result (λ o. IfSome o (λ _. ¬ HasBoth lits.now)) }
        ensures same { IfOk result (λ o. IfSome o (λ c. SameLiterals c lits.now)) }
        ensures order { IfOk result (λ o. IfSome o (λ c. IsClause c)) }
        ensures value { IfOk result (λ o. IfSome o (λ c. (s : ℕ → Bool) → clause_value s c ≡ clause_value s lits.now)) }
    {
        let mut sorted: SmallVec<Lit, 4> = SmallVec::from_slice(alloc, lits)?;
        Clause::of_mut(alloc, sorted.as_mut_slice())
    }

    /// The same, of literals that it may put in order of variable. It takes memory for the clause alone.
    pub fn of_mut(alloc: Global, lits: &mut [Lit]) -> Result<Option<Clause>, NoMemory>
        ensures left { SameLiterals lits.new lits.old }
        ensures none { IfOk result (λ o. IfNone o (HasBoth lits.old)) }
        ensures always { IfOk result (λ o. IfNone o ((s : ℕ → Bool) → clause_value s lits.old ≡ true)) }
        ensures apart { IfOk result (λ o. IfSome o (λ _. ¬ HasBoth lits.old)) }
        ensures same { IfOk result (λ o. IfSome o (λ c. SameLiterals c lits.old)) }
        ensures order { IfOk result (λ o. IfSome o (λ c. IsClause c)) }
        ensures value { IfOk result (λ o. IfSome o (λ c. (s : ℕ → Bool) → clause_value s c ≡ clause_value s lits.old)) }
    {
        lits.sort_unstable_by_key(|lit| lit.var());
        merged(alloc, lits)
    }

    /// The clause of these literals, which stand in ascending order of variable. It sorts nothing.
    pub fn of_ascending(alloc: Global, lits: &[Lit]) -> Result<Clause, NoMemory>
        requires { IsClause lits.now }
        ensures { IfOk result (λ c. c ≡ lits.now) }
    {
        let lits = SmallVec::from_slice(alloc, lits)?;
        Ok(Clause { lits })
    }

    /// The same clause once more.
    pub fn copy(&self, alloc: Global) -> Result<Clause, NoMemory>
        ensures { IfOk result (λ c. c ≡ self.now) }
    {
        let lits = SmallVec::from_slice(alloc, self.lits.as_slice())?;
        Ok(Clause { lits })
    }

    /// The literals, in ascending order of variable.
    pub fn lits(&self) -> &[Lit]
        ensures value { result.now ≡ self.now }
        ensures order { IsClause self.now }
    {
        self.lits.as_slice()
    }
}

/// Whether the literals stand in ascending order of variable, and no variable twice.
pub fn is_ascending(lits: &[Lit]) -> bool
    ensures { IsTrue result ↔ IsClause lits.now }
{
    let mut last = 0;
    for lit in lits {
        let var = lit.var();
        if var <= last {
            return false;
        }
        last = var;
    }
    true
}

/// The clause of these literals, which are in order of variable.
fn merged(alloc: Global, sorted: &[Lit]) -> Result<Option<Clause>, NoMemory>
    requires { IsInOrder sorted.now }
    ensures none { IfOk result (λ o. IfNone o (HasBoth sorted.now)) }
    ensures same { IfOk result (λ o. IfSome o (λ c. SameLiterals c sorted.now)) }
    ensures order { IfOk result (λ o. IfSome o (λ c. IsClause c)) }
{
    let mut lits = SmallVec::with_capacity(alloc, sorted.len())?;
    let mut last: Option<Lit> = None;
    for lit in sorted {
        let var = lit.var();
        match last {
            None => {
                lits.push(*lit)?;
                last = Some(*lit);
            }
            Some(before) => {
                if before.var() != var {
                    lits.push(*lit)?;
                    last = Some(*lit);
                } else if before.is_positive() != lit.is_positive() {
                    return Ok(None);
                }
            }
        }
    }
    Ok(Some(Clause { lits }))
}
