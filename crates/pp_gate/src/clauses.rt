//! The clauses of a gate.

ghost use Rattle.std.specs.Prelude.{◌≡◌, ℕ, Bool, ◌+◌, ◌-◌, ◌^◌, ◌<◌, ◌≤◌, ◌&&◌, [], ◌∷◌, if◌then◌else◌, length, OnOk};
ghost use Rattle.std.specs.Bool.{beq};
ghost use Rattle.pp_clause.specs.Literal.{lit_value};
ghost use Rattle.pp_clause.specs.Clause.{clauses_value};
ghost use Rattle.pp_gate.specs.Gate.{gate_value, xor_of, majority_of};
ghost use Rattle.pp_gate.specs.Circuit.{FitsAfter};
ghost use Rattle.pp_gate.specs.Clauses.{AreShortWithin, AddsClause, AddsAgreement, AddsEquation};

use crate::NoMemory;
use crate::gate::Gate;
use pp_clause::{Clause, Clauses, Lit, is_ascending};
use std::alloc::Global;

/// Adds the clause of these literals, unless it is always true. It sorts them only where they aren't in order.
fn add(clauses: &mut Clauses, alloc: Global, lits: &[Lit]) -> Result<(), NoMemory>
    requires short { length lits.now ≤ 4 }
    requires room { length clauses.old < 2 ^ 32 - 1 }
    ensures { OnOk result (AddsClause clauses.old clauses.new lits.now) }
{
    if is_ascending(lits) {
        let clause = Clause::of_ascending(alloc, lits)?;
        clauses.add(clause)?;
        Ok(())
    } else {
        add_sorted(clauses, alloc, lits)
    }
}

/// The same for literals in any order.
fn add_sorted(clauses: &mut Clauses, alloc: Global, lits: &[Lit]) -> Result<(), NoMemory>
    requires short { length lits.now ≤ 4 }
    requires room { length clauses.old < 2 ^ 32 - 1 }
    ensures { OnOk result (AddsClause clauses.old clauses.new lits.now) }
{
    match Clause::of(alloc, lits)? {
        Some(clause) => {
            clauses.add(clause)?;
            Ok(())
        }
        None => Ok(()),
    }
}

/// How many clauses a gate has.
pub(crate) fn clause_count(gate: Gate) -> usize {
    match gate {
        Gate::Truth => 1,
        Gate::Input(_) => 0,
        Gate::And(..) => 3,
        Gate::Xor(..) | Gate::Mux(..) => 4,
        Gate::Majority(..) => 6,
    }
}

/// The clauses by which `out` is true exactly where `a` and `b` are.
fn add_and(clauses: &mut Clauses, alloc: Global, out: Lit, a: Lit, b: Lit) -> Result<(), NoMemory>
    requires room { length clauses.old + 8 < 2 ^ 32 }
    ensures { OnOk result (AddsEquation clauses.old clauses.new out (a ∷ b ∷ [])
        (λ s. lit_value s a && lit_value s b)) }
{
    let off = out.negated();
    let not_a = a.negated();
    let not_b = b.negated();
    add(clauses, alloc, &[a, off])?;
    add(clauses, alloc, &[b, off])?;
    add(clauses, alloc, &[not_a, not_b, out])?;
    Ok(())
}

/// The clauses by which `out` is true exactly where exactly one of `a` and `b` is.
fn add_xor(clauses: &mut Clauses, alloc: Global, out: Lit, a: Lit, b: Lit) -> Result<(), NoMemory>
    requires room { length clauses.old + 8 < 2 ^ 32 }
    ensures { OnOk result (AddsEquation clauses.old clauses.new out (a ∷ b ∷ [])
        (λ s. xor_of (lit_value s a) (lit_value s b))) }
{
    let off = out.negated();
    let not_a = a.negated();
    let not_b = b.negated();
    add(clauses, alloc, &[a, b, off])?;
    add(clauses, alloc, &[not_a, not_b, off])?;
    add(clauses, alloc, &[not_a, b, out])?;
    add(clauses, alloc, &[a, not_b, out])?;
    Ok(())
}

/// The clauses by which `out` is `a` where `c` is true, and else `b`.
fn add_mux(
    clauses: &mut Clauses,
    alloc: Global,
    out: Lit,
    c: Lit,
    a: Lit,
    b: Lit,
) -> Result<(), NoMemory>
    requires room { length clauses.old + 8 < 2 ^ 32 }
    ensures { OnOk result (AddsEquation clauses.old clauses.new out (c ∷ a ∷ b ∷ [])
        (λ s. if lit_value s c then lit_value s a else lit_value s b)) }
{
    let off = out.negated();
    let not_c = c.negated();
    let not_a = a.negated();
    let not_b = b.negated();
    add(clauses, alloc, &[not_c, a, off])?;
    add(clauses, alloc, &[not_c, not_a, out])?;
    add(clauses, alloc, &[c, b, off])?;
    add(clauses, alloc, &[c, not_b, out])?;
    Ok(())
}

/// Two of the six clauses of a majority: where `a` and `b` are both true `out` is, and where both are false it isn't.
fn add_agreement(
    clauses: &mut Clauses,
    alloc: Global,
    out: Lit,
    a: Lit,
    b: Lit,
) -> Result<(), NoMemory>
    requires room { length clauses.old + 2 < 2 ^ 32 }
    ensures { OnOk result (AddsAgreement clauses.old clauses.new out a b) }
{
    let off = out.negated();
    let not_a = a.negated();
    let not_b = b.negated();
    add(clauses, alloc, &[a, b, off])?;
    add(clauses, alloc, &[not_a, not_b, out])?;
    Ok(())
}

/// The clauses by which `out` is true exactly where at least two of `a`, `b` and `c` are.
fn add_majority(
    clauses: &mut Clauses,
    alloc: Global,
    out: Lit,
    a: Lit,
    b: Lit,
    c: Lit,
) -> Result<(), NoMemory>
    requires room { length clauses.old + 8 < 2 ^ 32 }
    ensures { OnOk result (AddsEquation clauses.old clauses.new out (a ∷ b ∷ c ∷ [])
        (λ s. majority_of (lit_value s a) (lit_value s b) (lit_value s c))) }
{
    add_agreement(clauses, alloc, out, a, b)?;
    add_agreement(clauses, alloc, out, a, c)?;
    add_agreement(clauses, alloc, out, b, c)?;
    Ok(())
}

/// The clauses by which the variable after the first `place` has the value of this gate.
pub(crate) fn add_gate(
    clauses: &mut Clauses,
    alloc: Global,
    place: u32,
    gate: Gate,
) -> Result<(), NoMemory>
    requires small { place < 2 ^ 30 }
    requires fits { FitsAfter place gate }
    requires room { length clauses.old + 8 < 2 ^ 32 }
    ensures most { OnOk result (length clauses.new ≤ length clauses.old + 8) }
    ensures value { OnOk result ((s : ℕ → Bool) → clauses_value s clauses.new
        ≡ (clauses_value s clauses.old && beq (s (place + 1)) (gate_value s gate))) }
    ensures within { OnOk result ((n : ℕ) → place < n → AreShortWithin n clauses.old → AreShortWithin n clauses.new) }
{
    let out = Lit::new(place + 1, true);
    match gate {
        Gate::Truth => add(clauses, alloc, &[out])?,
        Gate::Input(_) => {}
        Gate::And(a, b) => add_and(clauses, alloc, out, a, b)?,
        Gate::Xor(a, b) => add_xor(clauses, alloc, out, a, b)?,
        Gate::Mux(c, a, b) => add_mux(clauses, alloc, out, c, a, b)?,
        Gate::Majority(a, b, c) => add_majority(clauses, alloc, out, a, b, c)?,
    }
    Ok(())
}
