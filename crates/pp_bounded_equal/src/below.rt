//! Whether one tree stands for a proper subtree of what another stands for.

ghost use Rattle.std.specs.Prelude.{◌≡◌, ◌+◌, ◌-◌, ◌*◌, ◌^◌, ◌≤◌, List, [], ◌∷◌, length, IfOk};
ghost use Rattle.pp_prog.specs.declared.sort.Sort.{Sort as SortSpec};
ghost use Rattle.pp_prog.specs.declared.sort.Sort.TheVariants as sort;
ghost use Rattle.pp_prog.specs.Sizes.{bits};
ghost use Rattle.pp_gate.specs.Circuit.{IsOf};
ghost use Rattle.pp_gate.specs.Growth.{AddsGates};
ghost use Rattle.pp_domain.specs.Allowance.{below_gates};
ghost use Rattle.pp_domain.specs.Answers.{AreOfOneData, IsComparison};
ghost use Rattle.pp_domain.specs.Moves.{Moves, Steady};
ghost use Rattle.pp_domain.specs.Symbols.{AreSymbols, IsSymbol};
ghost use Rattle.pp_bounded_trees.specs.Alternatives.{found};
ghost use Rattle.pp_bounded_trees.specs.Arena.{TreeFits};
ghost use Rattle.pp_bounded_equal.specs.Below.{AreUnderTest, IsBelowStep, IsBelowTest, IsUnderTest, ctor_nodes};
ghost use Rattle.pp_bounded_equal.specs.Below.{fields_nodes, symbol_nodes, tree_nodes, weight};
ghost use Rattle.pp_bounded_trees.specs.Meaning.{BoundedFits, bounded_sense};
ghost use Rattle.pp_bounded_merge.specs.Merge.{OneSide};

use crate::NoMemory;
use crate::equal::equal_tree;
use pp_bounded_trees::arena::{Alternative, BoundedTree, Trees};
use pp_bounded_trees::look::find;
use pp_bounded_trees::possible::ctors_of;
use pp_clause::Lit;
use pp_domain::Symbol;
use pp_gate::Circuit;
use pp_prog::{CtorId, TypeTable};

/// Whether `new` is a proper subtree of `old`. The two have one datatype.
pub fn below_trees(
    trees: &Trees,
    circuit: &mut Circuit,
    table: &TypeTable,
    new: &BoundedTree,
    old: &BoundedTree,
) -> Result<Lit, NoMemory>
    requires fits { BoundedFits table.now trees.now circuit.old }
    requires trees { AreOfOneData bounded_sense table.now trees.now new.now old.now }
    requires room { length circuit.old + below_gates bounded_sense table.now trees.now new.now old.now ≤ 2 ^ 30 }
    ensures moves { Moves bounded_sense table.now trees.now circuit.old trees.now circuit.new
        (below_gates bounded_sense table.now trees.now new.now old.now) }
    ensures steady { Steady bounded_sense trees.now circuit.old trees.now circuit.new }
    ensures answer { IfOk result (λ l. IsComparison bounded_sense table.now trees.now circuit.old trees.now
        circuit.new new.now old.now l) }
{
    let below = below_tree(trees, circuit, table, new, old)?;
    Ok(below)
}

/// The same, for trees of any datatypes: a search through the fields of `old`.
#[cycle(below)]
fn below_tree(
    trees: &Trees,
    circuit: &mut Circuit,
    table: &TypeTable,
    new: &BoundedTree,
    old: &BoundedTree,
) -> Result<Lit, NoMemory>
    requires fits { BoundedFits table.now trees.now circuit.old }
    requires new { TreeFits trees.now.nodes (length trees.now.nodes) new.now }
    requires old { TreeFits trees.now.nodes (length trees.now.nodes) old.now }
    requires room { length circuit.old + weight table.now new.now * (tree_nodes table.now old.now - 1) ≤ 2 ^ 30 }
    ensures adds { AddsGates circuit.old circuit.new
        (weight table.now new.now * (tree_nodes table.now old.now - 1)) }
    ensures test { IfOk result (λ l. IsBelowTest trees.now circuit.new new.now old.now l) }
{
    let mut any = circuit.truth().negated();
    let side = trees.alternatives(old);
    if side.is_empty() {
        return Ok(any);
    }
    let first = table.datatype(old.of).first.0;
    for place in 0..ctors_of(table, old.of).len() {
        let ctor = CtorId(first + place as u32);
        any = below_ctor(trees, circuit, table, new, side, ctor, any)?;
    }
    Ok(any)
}

/// Whether the literal is true, or `new` is a field of the constructor or below one.
#[cycle(below)]
fn below_ctor(
    trees: &Trees,
    circuit: &mut Circuit,
    table: &TypeTable,
    new: &BoundedTree,
    side: &[Alternative],
    ctor: CtorId,
    any: Lit,
) -> Result<Lit, NoMemory>
    requires fits { BoundedFits table.now trees.now circuit.old }
    requires new { TreeFits trees.now.nodes (length trees.now.nodes) new.now }
    requires side { OneSide table.now trees.now circuit.old side.now }
    requires any { IsOf circuit.old any }
    requires room { length circuit.old + weight table.now new.now * ctor_nodes table.now (found ctor.0 side.now)
        ≤ 2 ^ 30 }
    ensures adds { AddsGates circuit.old circuit.new
        (weight table.now new.now * ctor_nodes table.now (found ctor.0 side.now)) }
    ensures step { IfOk result (λ l. IsBelowStep trees.now circuit.new new.now side.now ctor.0 any l) }
{
    match find(ctor, side) {
        None => Ok(any),
        Some(x) => {
            let more = below_fields(trees, circuit, table, new, x.lit, x.fields.as_slice(), any)?;
            Ok(more)
        }
    }
}

/// Whether the literal `any` is true, or `lit` is and `new` is one of the fields or below one.
#[cycle(below)]
fn below_fields(
    trees: &Trees,
    circuit: &mut Circuit,
    table: &TypeTable,
    new: &BoundedTree,
    lit: Lit,
    fields: &[Symbol<BoundedTree>],
    any: Lit,
) -> Result<Lit, NoMemory>
    requires fits { BoundedFits table.now trees.now circuit.old }
    requires new { TreeFits trees.now.nodes (length trees.now.nodes) new.now }
    requires lit { IsOf circuit.old lit }
    requires fields { (ss : List SortSpec) × AreSymbols bounded_sense trees.now circuit.old ss fields.now }
    requires any { IsOf circuit.old any }
    requires room { length circuit.old + weight table.now new.now * fields_nodes table.now fields.now ≤ 2 ^ 30 }
    ensures adds { AddsGates circuit.old circuit.new
        (weight table.now new.now * fields_nodes table.now fields.now) }
    ensures test { IfOk result (λ l. AreUnderTest trees.now circuit.new new.now lit any l fields.now) }
{
    let mut more = any;
    for place in 0..fields.len() {
        more = below_field(trees, circuit, table, new, lit, &fields[place], more)?;
    }
    Ok(more)
}

/// The same for one field.
#[cycle(below)]
fn below_field(
    trees: &Trees,
    circuit: &mut Circuit,
    table: &TypeTable,
    new: &BoundedTree,
    lit: Lit,
    field: &Symbol<BoundedTree>,
    any: Lit,
) -> Result<Lit, NoMemory>
    requires fits { BoundedFits table.now trees.now circuit.old }
    requires new { TreeFits trees.now.nodes (length trees.now.nodes) new.now }
    requires lit { IsOf circuit.old lit }
    requires field { (s : SortSpec) × IsSymbol bounded_sense trees.now circuit.old s field.now }
    requires any { IsOf circuit.old any }
    requires room { length circuit.old + weight table.now new.now * symbol_nodes table.now field.now ≤ 2 ^ 30 }
    ensures adds { AddsGates circuit.old circuit.new
        (weight table.now new.now * symbol_nodes table.now field.now) }
    ensures test { IfOk result (λ l. AreUnderTest trees.now circuit.new new.now lit any l (field.now ∷ [])) }
{
    match field {
        Symbol::Word(_) => Ok(any),
        Symbol::Bit(_) => Ok(any),
        Symbol::Tree(tree) => {
            if trees.alternatives(tree).is_empty() {
                return Ok(any);
            }
            let under = under_tree(trees, circuit, table, new, tree)?;
            let here = circuit.and(lit, under)?;
            let more = circuit.or(any, here)?;
            Ok(more)
        }
    }
}

/// Whether `new` is `old` or below it. Trees of different datatypes are never the same.
#[cycle(below)]
fn under_tree(
    trees: &Trees,
    circuit: &mut Circuit,
    table: &TypeTable,
    new: &BoundedTree,
    old: &BoundedTree,
) -> Result<Lit, NoMemory>
    requires fits { BoundedFits table.now trees.now circuit.old }
    requires new { TreeFits trees.now.nodes (length trees.now.nodes) new.now }
    requires old { TreeFits trees.now.nodes (length trees.now.nodes) old.now }
    requires room { length circuit.old + (weight table.now new.now * (tree_nodes table.now old.now - 1)
        + 4 * bits table.now new.now.height (sort.Tree new.now.of) + 1) ≤ 2 ^ 30 }
    ensures adds { AddsGates circuit.old circuit.new (weight table.now new.now * (tree_nodes table.now old.now - 1)
        + 4 * bits table.now new.now.height (sort.Tree new.now.of) + 1) }
    ensures test { IfOk result (λ l. IsUnderTest trees.now circuit.new new.now old.now l) }
{
    let below = below_tree(trees, circuit, table, new, old)?;
    if new.of.0 != old.of.0 {
        return Ok(below);
    }
    let same = equal_tree(trees, circuit, table, new, old)?;
    let under = circuit.or(same, below)?;
    Ok(under)
}
