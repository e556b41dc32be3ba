//! The calls of a circuit that stand for functions of two or three truth values.

ghost use Rattle.std.specs.Prelude.{◌≡◌, ◌≢◌, ℕ, Bool, ◌≤◌, ◌<◌, ◌^◌, ◌&&◌, ◌||◌, ◌⊎◌, ◌+◌, if◌then◌else◌, length};
ghost use Rattle.std.specs.Prelude.{IfOk, OnErr};
ghost use Rattle.pp_clause.specs.Literal.{lit_value};
ghost use Rattle.pp_gate.specs.declared.gate.Gate.TheVariants.{Input};
ghost use Rattle.pp_gate.specs.Gate.{gate_value, xor_of, majority_of};
ghost use Rattle.pp_gate.specs.Circuit.{IsWithin, IsOf, FitsAfter, StandsFor};
ghost use Rattle.pp_gate.specs.Growth.{AddsGates};

use crate::NoMemory;
use crate::circuit::Circuit;
use crate::gate::Gate;
use pp_clause::Lit;

impl Circuit {
    /// The literal that is true where both are true.
    ///
    /// It adds at most the gate that it answers. On `NoMemory` nothing has changed.
    pub fn and(&mut self, a: Lit, b: Lit) -> Result<Lit, NoMemory>
        requires room { length self.old < 2 ^ 30 }
        requires left { IsOf self.old a }
        requires right { IsOf self.old b }
        ensures adds { AddsGates self.old self.new 1 }
        ensures stands { IfOk result (λ r. StandsFor self.new r (λ s. lit_value s a && lit_value s b)) }
        ensures err { OnErr result (self.new ≡ self.old) }
    {
        let truth = self.truth();
        if a == truth || a == b {
            Ok(b)
        } else if b == truth {
            Ok(a)
        } else if a == truth.negated() || b == truth.negated() || a == b.negated() {
            Ok(truth.negated())
        } else {
            let (first, second) = ordered(a, b);
            self.gate(Gate::And(first, second))
        }
    }

    /// The literal that is true where at least one of the two is true.
    ///
    /// It adds at most the gate that it answers. On `NoMemory` nothing has changed.
    pub fn or(&mut self, a: Lit, b: Lit) -> Result<Lit, NoMemory>
        requires room { length self.old < 2 ^ 30 }
        requires left { IsOf self.old a }
        requires right { IsOf self.old b }
        ensures adds { AddsGates self.old self.new 1 }
        ensures stands { IfOk result (λ r. StandsFor self.new r (λ s. lit_value s a || lit_value s b)) }
        ensures err { OnErr result (self.new ≡ self.old) }
    {
        let neither = self.and(a.negated(), b.negated())?;
        Ok(neither.negated())
    }

    /// The literal that is true where exactly one of the two is true.
    ///
    /// It adds at most the gate that it answers. On `NoMemory` nothing has changed.
    pub fn xor(&mut self, a: Lit, b: Lit) -> Result<Lit, NoMemory>
        requires room { length self.old < 2 ^ 30 }
        requires left { IsOf self.old a }
        requires right { IsOf self.old b }
        ensures adds { AddsGates self.old self.new 1 }
        ensures stands { IfOk result (λ r. StandsFor self.new r (λ s. xor_of (lit_value s a) (lit_value s b))) }
        ensures err { OnErr result (self.new ≡ self.old) }
    {
        let truth = self.truth();
        if a.var() == truth.var() {
            Ok(if a == truth { b.negated() } else { b })
        } else if b.var() == truth.var() {
            Ok(if b == truth { a.negated() } else { a })
        } else if a.var() == b.var() {
            Ok(if a == b { truth.negated() } else { truth })
        } else {
            self.plain_xor(a, b)
        }
    }

    /// The literal that is true where `a` is, if `c` is true, and else where `b` is.
    ///
    /// It adds at most the gate that it answers. On `NoMemory` nothing has changed.
    pub fn mux(&mut self, c: Lit, a: Lit, b: Lit) -> Result<Lit, NoMemory>
        requires room { length self.old < 2 ^ 30 }
        requires choice { IsOf self.old c }
        requires left { IsOf self.old a }
        requires right { IsOf self.old b }
        ensures adds { AddsGates self.old self.new 1 }
        ensures stands { IfOk result (λ r. StandsFor self.new r
            (λ s. if lit_value s c then lit_value s a else lit_value s b)) }
        ensures err { OnErr result (self.new ≡ self.old) }
    {
        let truth = self.truth();
        if c == truth || a == b {
            Ok(a)
        } else if c == truth.negated() {
            Ok(b)
        } else if a == b.negated() {
            self.xor(c, b)
        } else if a.var() == truth.var() || a.var() == c.var() {
            self.mux_of_constant(c, a, b)
        } else if b.var() == truth.var() || b.var() == c.var() {
            self.mux_of_constant(c.negated(), b, a)
        } else {
            self.plain_mux(c, a, b)
        }
    }

    /// The literal that is true where at least two of the three are true.
    ///
    /// It adds at most the gate that it answers. On `NoMemory` nothing has changed.
    pub fn majority(&mut self, a: Lit, b: Lit, c: Lit) -> Result<Lit, NoMemory>
        requires room { length self.old < 2 ^ 30 }
        requires first { IsOf self.old a }
        requires second { IsOf self.old b }
        requires third { IsOf self.old c }
        ensures adds { AddsGates self.old self.new 1 }
        ensures stands { IfOk result (λ r. StandsFor self.new r
            (λ s. majority_of (lit_value s a) (lit_value s b) (lit_value s c))) }
        ensures err { OnErr result (self.new ≡ self.old) }
    {
        let truth = self.truth();
        if a.var() == b.var() {
            Ok(if a == b { a } else { c })
        } else if a.var() == c.var() {
            Ok(if a == c { a } else { b })
        } else if b.var() == c.var() {
            Ok(if b == c { b } else { a })
        } else if a.var() == truth.var() {
            self.majority_with_constant(a, b, c)
        } else if b.var() == truth.var() {
            self.majority_with_constant(b, a, c)
        } else if c.var() == truth.var() {
            self.majority_with_constant(c, a, b)
        } else {
            self.plain_majority(a, b, c)
        }
    }

    /// `xor` of two variables: the gate is one of positive literals, the earlier one first.
    fn plain_xor(&mut self, a: Lit, b: Lit) -> Result<Lit, NoMemory>
        requires room { length self.old < 2 ^ 30 }
        requires left { IsOf self.old a }
        requires right { IsOf self.old b }
        ensures adds { AddsGates self.old self.new 1 }
        ensures stands { IfOk result (λ r. StandsFor self.new r (λ s. xor_of (lit_value s a) (lit_value s b))) }
        ensures err { OnErr result (self.new ≡ self.old) }
    {
        let (first, second) = ordered(Lit::new(a.var(), true), Lit::new(b.var(), true));
        let differ = self.gate(Gate::Xor(first, second))?;
        Ok(if a.is_positive() == b.is_positive() {
            differ
        } else {
            differ.negated()
        })
    }

    /// `mux` where `a` is a constant, or `c` or its negation, which is a constant where `a` is asked for.
    fn mux_of_constant(&mut self, c: Lit, a: Lit, b: Lit) -> Result<Lit, NoMemory>
        requires constant { (a.var ≡ 1) ⊎ (a.var ≡ c.var) }
        requires room { length self.old < 2 ^ 30 }
        requires choice { IsOf self.old c }
        requires left { IsOf self.old a }
        requires right { IsOf self.old b }
        ensures adds { AddsGates self.old self.new 1 }
        ensures stands { IfOk result (λ r. StandsFor self.new r
            (λ s. if lit_value s c then lit_value s a else lit_value s b)) }
        ensures err { OnErr result (self.new ≡ self.old) }
    {
        let truth = self.truth();
        if a == truth || a == c {
            let either = self.or(c, b)?;
            Ok(either)
        } else {
            let other = self.and(c.negated(), b)?;
            Ok(other)
        }
    }

    /// `mux` with no constant: the gate is one whose first two literals are positive.
    fn plain_mux(&mut self, c: Lit, a: Lit, b: Lit) -> Result<Lit, NoMemory>
        requires room { length self.old < 2 ^ 30 }
        requires choice { IsOf self.old c }
        requires left { IsOf self.old a }
        requires right { IsOf self.old b }
        ensures adds { AddsGates self.old self.new 1 }
        ensures stands { IfOk result (λ r. StandsFor self.new r
            (λ s. if lit_value s c then lit_value s a else lit_value s b)) }
        ensures err { OnErr result (self.new ≡ self.old) }
    {
        let (choice, yes, no) = if c.is_positive() {
            (c, a, b)
        } else {
            (c.negated(), b, a)
        };
        if yes.is_positive() {
            let chosen = self.gate(Gate::Mux(choice, yes, no))?;
            Ok(chosen)
        } else {
            let chosen = self.gate(Gate::Mux(choice, yes.negated(), no.negated()))?;
            Ok(chosen.negated())
        }
    }

    /// `majority` where `a` is a constant.
    fn majority_with_constant(&mut self, a: Lit, b: Lit, c: Lit) -> Result<Lit, NoMemory>
        requires constant { a.var ≡ 1 }
        requires room { length self.old < 2 ^ 30 }
        requires second { IsOf self.old b }
        requires third { IsOf self.old c }
        ensures adds { AddsGates self.old self.new 1 }
        ensures stands { IfOk result (λ r. StandsFor self.new r
            (λ s. majority_of (lit_value s a) (lit_value s b) (lit_value s c))) }
        ensures err { OnErr result (self.new ≡ self.old) }
    {
        if a.is_positive() {
            let either = self.or(b, c)?;
            Ok(either)
        } else {
            let both = self.and(b, c)?;
            Ok(both)
        }
    }

    /// `majority` with no constant: the gate is one of literals in order of their variables, the first one positive.
    fn plain_majority(&mut self, a: Lit, b: Lit, c: Lit) -> Result<Lit, NoMemory>
        requires room { length self.old < 2 ^ 30 }
        requires first { IsOf self.old a }
        requires second { IsOf self.old b }
        requires third { IsOf self.old c }
        ensures adds { AddsGates self.old self.new 1 }
        ensures stands { IfOk result (λ r. StandsFor self.new r
            (λ s. majority_of (lit_value s a) (lit_value s b) (lit_value s c))) }
        ensures err { OnErr result (self.new ≡ self.old) }
    {
        let (least, middle, last) = in_order(a, b, c);
        if least.is_positive() {
            let most = self.gate(Gate::Majority(least, middle, last))?;
            Ok(most)
        } else {
            // the majority of the negations is the negation of the majority
            let most = self.gate(Gate::Majority(
                least.negated(),
                middle.negated(),
                last.negated(),
            ))?;
            Ok(most.negated())
        }
    }

    /// The literal of a gate that isn't an input, which is added where it isn't there yet.
    fn gate(&mut self, gate: Gate) -> Result<Lit, NoMemory>
        requires room { length self.old < 2 ^ 30 }
        requires fits { FitsAfter (length self.old) gate }
        requires own { (x : ℕ) → gate ≢ Input x }
        ensures adds { AddsGates self.old self.new 1 }
        ensures stands { IfOk result (λ r. StandsFor self.new r (λ s. gate_value s gate)) }
        ensures err { OnErr result (self.new ≡ self.old) }
    {
        let lit = self.literal_of(gate)?;
        Ok(lit)
    }
}

/// The two, that of the earlier variable first.
fn ordered(a: Lit, b: Lit) -> (Lit, Lit)
    ensures either { (result ≡ (a, b)) ⊎ (result ≡ (b, a)) }
{
    if b.var() < a.var() { (b, a) } else { (a, b) }
}

/// The three in order of their variables.
fn in_order(a: Lit, b: Lit, c: Lit) -> (Lit, Lit, Lit)
    ensures within { (n : ℕ) → IsWithin n a → IsWithin n b → IsWithin n c → IsWithin n result.0
        × (IsWithin n result.1 × IsWithin n result.2) }
    ensures same { (s : ℕ → Bool) → majority_of (lit_value s result.0) (lit_value s result.1) (lit_value s result.2)
        ≡ majority_of (lit_value s a) (lit_value s b) (lit_value s c) }
{
    let (first, second) = ordered(a, b);
    let (second, last) = ordered(second, c);
    let (first, second) = ordered(first, second);
    (first, second, last)
}
