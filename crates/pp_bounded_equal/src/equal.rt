//! Whether two trees stand for one value.

ghost use Rattle.std.specs.Prelude.{◌≡◌, ◌+◌, ◌-◌, ◌*◌, ◌^◌, ◌≤◌, length, IfOk};
ghost use Rattle.pp_gate.specs.Circuit.{IsOf};
ghost use Rattle.pp_gate.specs.Growth.{AddsGates};
ghost use Rattle.pp_domain.specs.declared.symbol.Symbol.TheVariants as symbol;
ghost use Rattle.pp_domain.specs.Allowance.{equal_gates};
ghost use Rattle.pp_domain.specs.AnySort.{AreOfOneSort};
ghost use Rattle.pp_domain.specs.Answers.{AreOfOneData, IsEquality};
ghost use Rattle.pp_domain.specs.Moves.{Moves, Steady};
ghost use Rattle.pp_bounded_trees.specs.Alternatives.{found};
ghost use Rattle.pp_bounded_equal.specs.Equal.{AreEqualFields, IsEqualStep, IsEqualTest, TwoTrees, joined_test};
ghost use Rattle.pp_bounded_equal.specs.Equal.{pair_test, pairs_test, tree_test};
ghost use Rattle.pp_bounded_trees.specs.Fields.{IsInArena, has_none as has_none_spec};
ghost use Rattle.pp_bounded_trees.specs.Meaning.{BoundedFits, bounded_sense};
ghost use Rattle.pp_bounded_merge.specs.Merge.{AreOfSorts};

use crate::NoMemory;
use pp_bounded_trees::arena::{Alternative, BoundedTree, Trees};
use pp_bounded_trees::look::find;
use pp_bounded_trees::possible::ctors_of;
use pp_clause::Lit;
use pp_domain::Symbol;
use pp_gate::Circuit;
use pp_prog::{CtorId, TypeTable};

/// Whether the two trees, of one datatype, stand for one value.
pub fn equal_trees(
    trees: &Trees,
    circuit: &mut Circuit,
    table: &TypeTable,
    left: &BoundedTree,
    right: &BoundedTree,
) -> Result<Lit, NoMemory>
    requires fits { BoundedFits table.now trees.now circuit.old }
    requires trees { AreOfOneData bounded_sense table.now trees.now left.now right.now }
    requires room { length circuit.old + equal_gates bounded_sense table.now trees.now left.now right.now ≤ 2 ^ 30 }
    ensures moves { Moves bounded_sense table.now trees.now circuit.old trees.now circuit.new
        (equal_gates bounded_sense table.now trees.now left.now right.now) }
    ensures steady { Steady bounded_sense trees.now circuit.old trees.now circuit.new }
    ensures answer { IfOk result (λ l. IsEquality bounded_sense table.now trees.now circuit.old trees.now circuit.new
        left.now right.now l) }
{
    let same = equal_tree(trees, circuit, table, left, right)?;
    Ok(same)
}

/// Whether the two symbols, of one sort, have one value.
#[cycle(equal)]
fn equal_symbol(
    trees: &Trees,
    circuit: &mut Circuit,
    table: &TypeTable,
    left: &Symbol<BoundedTree>,
    right: &Symbol<BoundedTree>,
) -> Result<Lit, NoMemory>
    requires fits { BoundedFits table.now trees.now circuit.old }
    requires symbols { AreOfOneSort bounded_sense table.now trees.now circuit.old left.now right.now }
    requires room { length circuit.old + (pair_test table.now left.now right.now - 1) ≤ 2 ^ 30 }
    ensures adds { AddsGates circuit.old circuit.new (pair_test table.now left.now right.now - 1) }
    ensures test { IfOk result (λ l. IsEqualTest trees.now circuit.new left.now right.now l) }
{
    match (left, right) {
        (Symbol::Word(a), Symbol::Word(b)) => {
            let same = pp_wordgate::equal(circuit, *a, *b)?;
            Ok(same)
        }
        (Symbol::Bit(a), Symbol::Bit(b)) => {
            let differ = circuit.xor(*a, *b)?;
            Ok(differ.negated())
        }
        (Symbol::Tree(t), Symbol::Tree(u)) => {
            let same = equal_tree(trees, circuit, table, t, u)?;
            Ok(same)
        }
        _ => unreachable!(),
    }
}

/// Whether the two trees, of one datatype, have one value.
#[cycle(equal)]
pub(crate) fn equal_tree(
    trees: &Trees,
    circuit: &mut Circuit,
    table: &TypeTable,
    left: &BoundedTree,
    right: &BoundedTree,
) -> Result<Lit, NoMemory>
    requires fits { BoundedFits table.now trees.now circuit.old }
    requires trees { AreOfOneData bounded_sense table.now trees.now left.now right.now }
    requires room { length circuit.old + (tree_test table.now left.now right.now - 1) ≤ 2 ^ 30 }
    ensures adds { AddsGates circuit.old circuit.new (tree_test table.now left.now right.now - 1) }
    ensures test { IfOk result (λ l. IsEqualTest trees.now circuit.new (symbol.Tree left.now)
        (symbol.Tree right.now) l) }
{
    if left.number == right.number {
        return Ok(circuit.truth());
    }
    let mut any = circuit.truth().negated();
    let left_side = trees.alternatives(left);
    let right_side = trees.alternatives(right);
    if left_side.is_empty() {
        return Ok(any);
    }
    if right_side.is_empty() {
        return Ok(any);
    }
    let first = table.datatype(left.of).first.0;
    for place in 0..ctors_of(table, left.of).len() {
        let ctor = CtorId(first + place as u32);
        any = equal_ctor(trees, circuit, table, left_side, right_side, ctor, any)?;
    }
    Ok(any)
}

/// Whether this literal is true, or both have the constructor and equal fields.
#[cycle(equal)]
fn equal_ctor(
    trees: &Trees,
    circuit: &mut Circuit,
    table: &TypeTable,
    left: &[Alternative],
    right: &[Alternative],
    ctor: CtorId,
    any: Lit,
) -> Result<Lit, NoMemory>
    requires fits { BoundedFits table.now trees.now circuit.old }
    requires any { IsOf circuit.old any }
    requires sides { TwoTrees table.now trees.now circuit.old left.now right.now }
    requires room { length circuit.old + joined_test table.now (found ctor.0 left.now) (found ctor.0 right.now)
        ≤ 2 ^ 30 }
    ensures adds { AddsGates circuit.old circuit.new
        (joined_test table.now (found ctor.0 left.now) (found ctor.0 right.now)) }
    ensures step { IfOk result (λ l. IsEqualStep trees.now circuit.new left.now right.now ctor.0 any l) }
{
    match (find(ctor, left), find(ctor, right)) {
        (None, _) => Ok(any),
        (Some(_), None) => Ok(any),
        (Some(x), Some(y)) => {
            let both = circuit.and(x.lit, y.lit)?;
            let same = equal_fields(
                trees,
                circuit,
                table,
                both,
                x.fields.as_slice(),
                y.fields.as_slice(),
            )?;
            let either = circuit.or(any, same)?;
            Ok(either)
        }
    }
}

/// Whether the literal is true and the symbols have equal values.
#[cycle(equal)]
fn equal_fields(
    trees: &Trees,
    circuit: &mut Circuit,
    table: &TypeTable,
    both: Lit,
    left: &[Symbol<BoundedTree>],
    right: &[Symbol<BoundedTree>],
) -> Result<Lit, NoMemory>
    requires fits { BoundedFits table.now trees.now circuit.old }
    requires both { IsOf circuit.old both }
    requires fields { AreOfSorts trees.now circuit.old left.now right.now }
    requires room { length circuit.old + pairs_test table.now left.now right.now ≤ 2 ^ 30 }
    ensures adds { AddsGates circuit.old circuit.new (pairs_test table.now left.now right.now) }
    ensures test { IfOk result (λ l. AreEqualFields trees.now circuit.new both both left.now right.now l) }
{
    let mut all = both;
    for place in 0..left.len() {
        let x = &left[place];
        let y = &right[place];
        if has_none(trees, x) {
            return Ok(circuit.truth().negated());
        }
        if has_none(trees, y) {
            return Ok(circuit.truth().negated());
        }
        let same = equal_symbol(trees, circuit, table, x, y)?;
        all = circuit.and(all, same)?;
    }
    Ok(all)
}

/// Whether the symbol is a tree that stands for nothing.
fn has_none(trees: &Trees, symbol: &Symbol<BoundedTree>) -> bool
    requires { IsInArena trees.now.nodes symbol.now }
    ensures { result ≡ has_none_spec trees.now.nodes symbol.now }
{
    match symbol {
        Symbol::Word(_) => false,
        Symbol::Bit(_) => false,
        Symbol::Tree(tree) => trees.alternatives(tree).is_empty(),
    }
}
