//! How long a table has to be.
ghost use Rattle.std.specs.Prelude.{All};
ghost use Rattle.pp_clause.specs.Bound.{Fits};
ghost use Rattle.pp_clause.specs.Clause.{IsClause};
ghost use Rattle.pp_refute.specs.Checking.{AllFit};

use pp_clause::{Clauses, Lemma, greatest_var, raised};

/// A length at which the table has a place for each variable of these clauses and lemmas.
pub fn table_len(clauses: &Clauses, lemmas: &[Lemma]) -> usize
    ensures clauses { AllFit result clauses.now }
    ensures lemmas { All (λ m. Fits result m.clause) lemmas.now }
    ensures order { All IsClause clauses.now }
{
    let mut greatest = greatest_var(clauses);
    for lemma in lemmas {
        greatest = raised(greatest, lemma.clause.lits());
    }
    greatest as usize + 1
}
