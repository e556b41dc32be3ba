//! The choice of one of two trees.

ghost use Rattle.std.specs.Prelude.{◌≡◌, ◌+◌, ◌-◌, ◌^◌, ◌≤◌, ◌<◌, max, length, IfOk};
ghost use Rattle.pp_prog.specs.declared.sort.Sort.{Sort as SortSpec};
ghost use Rattle.pp_prog.specs.declared.sort.Sort.TheVariants as sort;
ghost use Rattle.pp_prog.specs.Sizes.{bits};
ghost use Rattle.pp_gate.specs.Circuit.{IsOf};
ghost use Rattle.pp_domain.specs.declared.symbol.Symbol.TheVariants as symbol;
ghost use Rattle.pp_domain.specs.Allowance.{merge_gates};
ghost use Rattle.pp_domain.specs.AnySort.{AreOfOneSort};
ghost use Rattle.pp_domain.specs.Answers.{AreOfOneData, IsMerge};
ghost use Rattle.pp_domain.specs.Moves.{Moves, SameLooks, Steady};
ghost use Rattle.pp_domain.specs.Symbols.{IsSymbol};
ghost use Rattle.pp_bounded_trees.specs.Alternatives.{found};
ghost use Rattle.pp_bounded_trees.specs.Meaning.{BoundedFits, bounded_sense};
ghost use Rattle.pp_bounded_merge.specs.Merge.{Adds, AreChosen, AreOfSorts, IsChosen, IsMergedCtor, MergedBefore};
ghost use Rattle.pp_bounded_merge.specs.Merge.{TwoSides, joined_bits, merged_bits, pair_bits, pairs_bits};

use crate::NoMemory;
use pp_bounded_trees::arena::{Alternative, BoundedTree, Node, Trees};
use pp_bounded_trees::look::find;
use pp_bounded_trees::possible::ctors_of;
use pp_clause::Lit;
use pp_domain::{Symbol, Symbols};
use pp_gate::Circuit;
use pp_list::Items;
use pp_prog::{CtorId, TypeTable};
use std::alloc::Global;

/// The same constructors once more.
fn copies(alloc: Global, alternatives: &[Alternative]) -> Result<Items<Alternative>, NoMemory>
    ensures { IfOk result (λ ys. ys ≡ alternatives.now) }
{
    let mut all = Items::new(alloc);
    for alternative in alternatives {
        let fields = Items::from_slice(alloc, alternative.fields.as_slice())?;
        all.push(Alternative {
            ctor: alternative.ctor,
            lit: alternative.lit,
            fields,
        })?;
    }
    Ok(all)
}

/// The left tree where the choice is true, and else the right one. They have one datatype.
pub fn merge_trees(
    trees: &mut Trees,
    circuit: &mut Circuit,
    table: &TypeTable,
    choice: Lit,
    left: &BoundedTree,
    right: &BoundedTree,
) -> Result<BoundedTree, NoMemory>
    requires fits { BoundedFits table.now trees.old circuit.old }
    requires choice { IsOf circuit.old choice }
    requires trees { AreOfOneData bounded_sense table.now trees.old left.now right.now }
    requires room { length circuit.old + merge_gates bounded_sense table.now trees.old left.now right.now ≤ 2 ^ 30 }
    ensures moves { Moves bounded_sense table.now trees.old circuit.old trees.new circuit.new
        (merge_gates bounded_sense table.now trees.old left.now right.now) }
    ensures steady { Steady bounded_sense trees.old circuit.old trees.new circuit.new }
    ensures looks { SameLooks bounded_sense trees.old trees.new }
    ensures answer { IfOk result (λ t. IsMerge bounded_sense table.now trees.old circuit.old trees.new circuit.new
        choice left.now right.now t) }
{
    let tree = choose_tree(trees, circuit, table, choice, left, right)?;
    Ok(tree)
}

/// The left symbol where the choice is true, and else the right one.
#[cycle(merge)]
fn choose_symbol(
    trees: &mut Trees,
    circuit: &mut Circuit,
    table: &TypeTable,
    choice: Lit,
    left: &Symbol<BoundedTree>,
    right: &Symbol<BoundedTree>,
) -> Result<Symbol<BoundedTree>, NoMemory>
    requires fits { BoundedFits table.now trees.old circuit.old }
    requires choice { IsOf circuit.old choice }
    requires symbols { AreOfOneSort bounded_sense table.now trees.old circuit.old left.now right.now }
    requires room { length circuit.old + pair_bits table.now left.now right.now ≤ 2 ^ 30 }
    ensures adds { Adds table.now trees.old circuit.old trees.new circuit.new
        (pair_bits table.now left.now right.now) }
    ensures chosen { IfOk result (λ r. (s : SortSpec) → IsSymbol bounded_sense trees.old circuit.old s left.now
        → IsChosen trees.new circuit.new choice s left.now right.now r) }
{
    match (left, right) {
        (Symbol::Word(a), Symbol::Word(b)) => {
            let word = pp_wordgate::choose(circuit, choice, *a, *b)?;
            Ok(Symbol::Word(word))
        }
        (Symbol::Bit(a), Symbol::Bit(b)) => {
            let bit = circuit.mux(choice, *a, *b)?;
            Ok(Symbol::Bit(bit))
        }
        (Symbol::Tree(t), Symbol::Tree(u)) => {
            let tree = choose_tree(trees, circuit, table, choice, t, u)?;
            Ok(Symbol::Tree(tree))
        }
        _ => unreachable!(),
    }
}

/// The left tree where the choice is true, and else the right one.
#[cycle(merge)]
fn choose_tree(
    trees: &mut Trees,
    circuit: &mut Circuit,
    table: &TypeTable,
    choice: Lit,
    left: &BoundedTree,
    right: &BoundedTree,
) -> Result<BoundedTree, NoMemory>
    requires fits { BoundedFits table.now trees.old circuit.old }
    requires choice { IsOf circuit.old choice }
    requires trees { AreOfOneData bounded_sense table.now trees.old left.now right.now }
    requires room { length circuit.old + bits table.now (max left.now.height right.now.height)
        (sort.Tree left.now.of) ≤ 2 ^ 30 }
    ensures adds { Adds table.now trees.old circuit.old trees.new circuit.new
        (bits table.now (max left.now.height right.now.height) (sort.Tree left.now.of)) }
    ensures chosen { IfOk result (λ t. IsChosen trees.new circuit.new choice (sort.Tree left.now.of)
        (symbol.Tree left.now) (symbol.Tree right.now) (symbol.Tree t)) }
{
    let of = left.of;
    let height = left.height.max(right.height);
    if left.number == right.number {
        return Ok(BoundedTree {
            number: left.number,
            of,
            height,
        });
    }
    let left_side = copies(circuit.allocator(), trees.alternatives(left))?;
    let right_side = copies(circuit.allocator(), trees.alternatives(right))?;
    if right_side.is_empty() {
        return Ok(BoundedTree {
            number: left.number,
            of,
            height,
        });
    }
    if left_side.is_empty() {
        return Ok(BoundedTree {
            number: right.number,
            of,
            height,
        });
    }
    let first = table.datatype(of).first.0;
    let count = ctors_of(table, of).len();
    let alternatives = choose_alternatives(
        trees,
        circuit,
        table,
        choice,
        left_side.as_slice(),
        right_side.as_slice(),
        first,
        count,
    )?;
    let tree = trees.push(Node {
        of,
        height,
        alternatives,
    })?;
    Ok(tree)
}

/// Those of so many constructors from the first on that one side has, with the literals and fields of the chosen
/// side.
#[cycle(merge)]
fn choose_alternatives(
    trees: &mut Trees,
    circuit: &mut Circuit,
    table: &TypeTable,
    choice: Lit,
    left: &[Alternative],
    right: &[Alternative],
    first: u32,
    count: usize,
) -> Result<Items<Alternative>, NoMemory>
    requires fits { BoundedFits table.now trees.old circuit.old }
    requires choice { IsOf circuit.old choice }
    requires sides { TwoSides table.now trees.old circuit.old left.now right.now }
    requires ctors { first + count ≤ 2 ^ 32 }
    requires room { length circuit.old + merged_bits table.now left.now right.now first count ≤ 2 ^ 30 }
    ensures adds { Adds table.now trees.old circuit.old trees.new circuit.new
        (merged_bits table.now left.now right.now first count) }
    ensures merged { IfOk result (λ zs. (s : TwoSides table.now trees.old circuit.old left.now right.now)
        → MergedBefore table.now trees.new circuit.new choice s.of s.h left.now right.now first count zs) }
{
    let mut all = Items::new(circuit.allocator());
    for place in 0..count {
        let ctor = CtorId(first + place as u32);
        match choose_ctor(trees, circuit, table, choice, left, right, ctor)? {
            Some(merged) => all.push(merged)?,
            None => {}
        }
    }
    Ok(all)
}

/// The constructor, if one side has it, with the literal and the fields of the chosen side.
#[cycle(merge)]
fn choose_ctor(
    trees: &mut Trees,
    circuit: &mut Circuit,
    table: &TypeTable,
    choice: Lit,
    left: &[Alternative],
    right: &[Alternative],
    ctor: CtorId,
) -> Result<Option<Alternative>, NoMemory>
    requires fits { BoundedFits table.now trees.old circuit.old }
    requires choice { IsOf circuit.old choice }
    requires sides { TwoSides table.now trees.old circuit.old left.now right.now }
    requires room { length circuit.old + joined_bits table.now (found ctor.0 left.now) (found ctor.0 right.now)
        ≤ 2 ^ 30 }
    ensures adds { Adds table.now trees.old circuit.old trees.new circuit.new
        (joined_bits table.now (found ctor.0 left.now) (found ctor.0 right.now)) }
    ensures merged { IfOk result (λ o. (s : TwoSides table.now trees.old circuit.old left.now right.now)
        → IsMergedCtor table.now trees.new circuit.new choice s.of s.h left.now right.now ctor o) }
{
    match (find(ctor, left), find(ctor, right)) {
        (None, None) => Ok(None),
        (Some(x), None) => {
            let lit = circuit.and(choice, x.lit)?;
            let fields = Items::from_slice(circuit.allocator(), x.fields.as_slice())?;
            Ok(Some(Alternative { ctor, lit, fields }))
        }
        (None, Some(y)) => {
            let lit = circuit.and(choice.negated(), y.lit)?;
            let fields = Items::from_slice(circuit.allocator(), y.fields.as_slice())?;
            Ok(Some(Alternative { ctor, lit, fields }))
        }
        (Some(x), Some(y)) => {
            let lit = circuit.mux(choice, x.lit, y.lit)?;
            let fields = choose_fields(
                trees,
                circuit,
                table,
                choice,
                x.fields.as_slice(),
                y.fields.as_slice(),
            )?;
            Ok(Some(Alternative { ctor, lit, fields }))
        }
    }
}

/// The left symbols where the choice is true, and else the right ones.
#[cycle(merge)]
fn choose_fields(
    trees: &mut Trees,
    circuit: &mut Circuit,
    table: &TypeTable,
    choice: Lit,
    left: &[Symbol<BoundedTree>],
    right: &[Symbol<BoundedTree>],
) -> Result<Symbols<BoundedTree>, NoMemory>
    requires fits { BoundedFits table.now trees.old circuit.old }
    requires choice { IsOf circuit.old choice }
    requires fields { AreOfSorts trees.old circuit.old left.now right.now }
    requires room { length circuit.old + pairs_bits table.now left.now right.now ≤ 2 ^ 30 }
    ensures adds { Adds table.now trees.old circuit.old trees.new circuit.new
        (pairs_bits table.now left.now right.now) }
    ensures chosen { IfOk result (λ rs. (s : AreOfSorts trees.old circuit.old left.now right.now)
        → AreChosen trees.new circuit.new choice s.sorts left.now right.now rs) }
{
    let mut fields = Items::new(circuit.allocator());
    for place in 0..left.len() {
        let field = choose_symbol(trees, circuit, table, choice, &left[place], &right[place])?;
        fields.push(field)?;
    }
    Ok(fields)
}
