//! Sets of literals as tables by variable, and the step of resolution on them.
ghost use Rattle.std.specs.Prelude.{◌≡◌, ◌<◌, length, IfSome, Some, slice_set, IsTrue, false};
ghost use Rattle.pp_clause.specs.Clause.{IsClause};
ghost use Rattle.pp_clause.specs.Bound.{Fits};
ghost use Rattle.pp_refute.specs.Table.{marked, put_all, clash_of, Steps, IsStuck};

use pp_clause::Lit;

/// Whether the table has the literal.
pub fn is_marked(table: &[Option<bool>], lit: Lit) -> bool
    requires { lit.var < length table.now }
    ensures { result ≡ marked table.now lit }
{
    match table[lit.var() as usize] {
        Some(positive) => positive == lit.is_positive(),
        None => false,
    }
}

/// Puts the literal into the table.
pub fn mark(table: &mut [Option<bool>], lit: Lit)
    requires { lit.var < length table.old }
    ensures { table.new ≡ slice_set table.old lit.var (Some lit.positive) }
{
    table[lit.var() as usize] = Some(lit.is_positive());
}

/// Puts the literals of the clause into the table.
pub fn mark_all(table: &mut [Option<bool>], clause: &[Lit])
    requires { Fits (length table.old) clause.now }
    ensures { table.new ≡ put_all table.old clause.now }
{
    for lit in clause {
        mark(table, *lit);
    }
}

/// The one literal of the clause whose negation is in the table. There is none where no literal or several are such.
pub fn only_clash(table: &[Option<bool>], clause: &[Lit]) -> Option<Lit>
    requires { Fits (length table.now) clause.now }
    ensures value { result ≡ clash_of table.now clause.now }
    ensures within { IfSome result (λ l. l.var < length table.now) }
{
    let mut found = None;
    for lit in clause {
        if is_marked(table, lit.negated()) {
            if found.is_some() {
                return None;
            }
            found = Some(*lit);
        }
    }
    found
}

/// Resolves what the table has with the clause, where exactly one variable of the clause has the opposite sign in it.
/// Where that isn't so the answer is false, and the table is as before.
pub fn resolve(table: &mut [Option<bool>], clause: &[Lit]) -> bool
    requires fits { Fits (length table.old) clause.now }
    requires order { IsClause clause.now }
    ensures yes { IsTrue result → Steps table.old table.new clause.now }
    ensures no { result ≡ false → IsStuck table.old clause.now }
    ensures unchanged { result ≡ false → table.new ≡ table.old }
{
    let Some(clash) = only_clash(table, clause) else {
        return false;
    };
    mark_all(table, clause);
    table[clash.var() as usize] = None;
    true
}
