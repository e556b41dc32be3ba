//! Whether two trees that were looked at agree: they have one name exactly where they have one content.

ghost use Rattle.std.specs.Prelude.{◌≡◌, ◌+◌, ◌^◌, ◌≤◌, length, IfOk};
ghost use Rattle.pp_gate.specs.Circuit.{IsCircuit, IsOf};
ghost use Rattle.pp_gate.specs.Growth.{AddsGates};
ghost use Rattle.pp_named_trees.specs.Arena.{IsName};
ghost use Rattle.pp_named_instances.specs.Tests.{AreAllParts, AreLooks, AreOfOneCtor, AreOfOneData, AreParts};
ghost use Rattle.pp_named_instances.specs.Tests.{AreSameTest, IsAgreement, IsAgreementIf, IsAgreementTest};
ghost use Rattle.pp_named_instances.specs.Tests.{IsContentsTest};
ghost use Rattle.pp_named_instances.specs.Tests.{IsCtorTest, IsLookLike, IsSameTest, agreement_gates};
ghost use Rattle.pp_named_instances.specs.Tests.{agreement_gates_if, agreements_gates};
ghost use Rattle.pp_named_instances.specs.Tests.{all_same_gates, contents_same_gates, ctor_same_gates, same_gates};

use crate::NoMemory;
use pp_clause::Lit;
use pp_domain::Symbol;
use pp_gate::Circuit;
use pp_named_trees::{Alternative, Expansion, NamedTree};

/// Whether the two symbols, of one sort, have one number.
fn same_symbol(
    circuit: &mut Circuit,
    x: &Symbol<NamedTree>,
    y: &Symbol<NamedTree>,
) -> Result<Lit, NoMemory>
    requires circuit { IsCircuit circuit.old }
    requires parts { AreParts circuit.old x.now y.now }
    requires room { length circuit.old + same_gates x.now ≤ 2 ^ 30 }
    ensures adds { AddsGates circuit.old circuit.new (same_gates x.now) }
    ensures same { IfOk result (λ l. IsSameTest circuit.new x.now y.now l) }
{
    match (x, y) {
        (Symbol::Word(v), Symbol::Word(w)) => {
            let same = pp_wordgate::equal(circuit, *v, *w)?;
            Ok(same)
        }
        (Symbol::Bit(l), Symbol::Bit(m)) => {
            let differ = circuit.xor(*l, *m)?;
            Ok(differ.negated())
        }
        (Symbol::Tree(t), Symbol::Tree(u)) => {
            let same = pp_bits::equal(circuit, t.name.lits(), u.name.lits())?;
            Ok(same)
        }
        _ => unreachable!(),
    }
}

/// Whether the literal is true and the fields are the same.
fn same_fields(
    circuit: &mut Circuit,
    both: Lit,
    xs: &[Symbol<NamedTree>],
    ys: &[Symbol<NamedTree>],
) -> Result<Lit, NoMemory>
    requires circuit { IsCircuit circuit.old }
    requires both { IsOf circuit.old both }
    requires parts { AreAllParts circuit.old xs.now ys.now }
    requires room { length circuit.old + all_same_gates xs.now ≤ 2 ^ 30 }
    ensures adds { AddsGates circuit.old circuit.new (all_same_gates xs.now) }
    ensures same { IfOk result (λ l. AreSameTest circuit.new both xs.now ys.now l) }
{
    let mut all = both;
    for place in 0..xs.len() {
        let same = same_symbol(circuit, &xs[place], &ys[place])?;
        all = circuit.and(all, same)?;
    }
    Ok(all)
}

/// Whether the literal is true, and the constructor of two trees has one literal and the same fields.
fn same_ctor(
    circuit: &mut Circuit,
    both: Lit,
    x: &Alternative,
    y: &Alternative,
) -> Result<Lit, NoMemory>
    requires circuit { IsCircuit circuit.old }
    requires both { IsOf circuit.old both }
    requires ctor { AreOfOneCtor circuit.old x.now y.now }
    requires room { length circuit.old + ctor_same_gates x.now ≤ 2 ^ 30 }
    ensures adds { AddsGates circuit.old circuit.new (ctor_same_gates x.now) }
    ensures same { IfOk result (λ l. IsCtorTest circuit.new both x.now y.now l) }
{
    let differ = circuit.xor(x.lit, y.lit)?;
    let lits = circuit.and(both, differ.negated())?;
    let all = same_fields(circuit, lits, x.fields.as_slice(), y.fields.as_slice())?;
    Ok(all)
}

/// Whether two trees of one datatype have the same constructors and fields.
fn same_contents(
    circuit: &mut Circuit,
    xs: &[Alternative],
    ys: &[Alternative],
) -> Result<Lit, NoMemory>
    requires circuit { IsCircuit circuit.old }
    requires contents { AreOfOneData circuit.old xs.now ys.now }
    requires room { length circuit.old + contents_same_gates xs.now ≤ 2 ^ 30 }
    ensures adds { AddsGates circuit.old circuit.new (contents_same_gates xs.now) }
    ensures same { IfOk result (λ l. IsContentsTest circuit.new xs.now ys.now l) }
{
    let mut all = circuit.truth();
    for place in 0..xs.len() {
        all = same_ctor(circuit, all, &xs[place], &ys[place])?;
    }
    Ok(all)
}

/// Whether two trees of one datatype have one name exactly where they have one content.
fn agreement(circuit: &mut Circuit, y: &Expansion, z: &Expansion) -> Result<Lit, NoMemory>
    requires circuit { IsCircuit circuit.old }
    requires first { IsName circuit.old y.now.name }
    requires second { IsName circuit.old z.now.name }
    requires contents { AreOfOneData circuit.old y.now.alternatives z.now.alternatives }
    requires room { length circuit.old + agreement_gates y.now ≤ 2 ^ 30 }
    ensures adds { AddsGates circuit.old circuit.new (agreement_gates y.now) }
    ensures agreement { IfOk result (λ l. IsAgreement circuit.new y.now z.now l) }
{
    let names = pp_bits::equal(circuit, y.name.lits(), z.name.lits())?;
    let contents = same_contents(
        circuit,
        y.alternatives.as_slice(),
        z.alternatives.as_slice(),
    )?;
    let differ = circuit.xor(names, contents)?;
    Ok(differ.negated())
}

/// Whether the literal is true, and the tree agrees with the other one if that is of its datatype.
fn agreement_if(
    circuit: &mut Circuit,
    all: Lit,
    y: &Expansion,
    z: &Expansion,
) -> Result<Lit, NoMemory>
    requires circuit { IsCircuit circuit.old }
    requires all { IsOf circuit.old all }
    requires own { IsName circuit.old y.now.name }
    requires other { z.now.of.0 ≡ y.now.of.0 → IsLookLike circuit.old y.now z.now }
    requires room { length circuit.old + agreement_gates_if y.now z.now ≤ 2 ^ 30 }
    ensures adds { AddsGates circuit.old circuit.new (agreement_gates_if y.now z.now) }
    ensures agree { IfOk result (λ l. IsAgreementIf circuit.new all y.now z.now l) }
{
    if z.of.0 == y.of.0 {
        let agree = agreement(circuit, y, z)?;
        let both = circuit.and(all, agree)?;
        Ok(both)
    } else {
        Ok(all)
    }
}

/// Whether the tree agrees with each of those that is of its datatype.
pub fn agreements(
    circuit: &mut Circuit,
    y: &Expansion,
    earlier: &[Expansion],
) -> Result<Lit, NoMemory>
    requires circuit { IsCircuit circuit.old }
    requires looks { AreLooks circuit.old y.now earlier.now }
    requires room { length circuit.old + agreements_gates y.now earlier.now ≤ 2 ^ 30 }
    ensures adds { AddsGates circuit.old circuit.new (agreements_gates y.now earlier.now) }
    ensures agree { IfOk result (λ l. IsAgreementTest circuit.new y.now earlier.now l) }
{
    let mut all = circuit.truth();
    for place in 0..earlier.len() {
        all = agreement_if(circuit, all, y, &earlier[place])?;
    }
    Ok(all)
}
