//! Trees of which nothing is known but their height.

ghost use Rattle.std.specs.Prelude.{◌≡◌, ◌+◌, ◌*◌, ◌^◌, ◌≤◌, ◌<◌, true, length, IfOk};
ghost use Rattle.std.specs.List.{list_all};
ghost use Rattle.pp_prog.specs.declared.sort.Sort.TheVariants as sort;
ghost use Rattle.pp_prog.specs.Sizes.{bits};
ghost use Rattle.pp_prog.specs.Table.{is_sort};
ghost use Rattle.pp_domain.specs.declared.symbol.Symbol.TheVariants as symbol;
ghost use Rattle.pp_domain.specs.Allowance.{unknown_gates};
ghost use Rattle.pp_domain.specs.Answers.{IsUnknown};
ghost use Rattle.pp_domain.specs.Moves.{Moves, SameLooks};
ghost use Rattle.pp_bounded_unknown.specs.Full.{AllPossible, AreFull, AreFullAlternatives, IsFull};
ghost use Rattle.pp_bounded_trees.specs.Possible.{ctor_bits, total, has_value as has_value_spec};
ghost use Rattle.pp_bounded_trees.specs.Meaning.{BoundedFits, bounded_sense};

use crate::NoMemory;
use pp_bounded_trees::arena::{Alternative, BoundedTree, Node, Trees};
use pp_bounded_trees::choices::choices;
use pp_bounded_trees::possible::{has_value, possible};
use pp_clause::Lit;
use pp_domain::{Symbol, Symbols, unknown_plain};
use pp_gate::Circuit;
use pp_list::Items;
use pp_prog::{CtorId, DataId, Sort, TypeTable};

/// A tree of which nothing is known but its height. It can have each value of the datatype up to this height, and
/// no other; where there is none `ok` is false, and with the height 0 it stands for nothing at all.
pub fn unknown_tree(
    trees: &mut Trees,
    circuit: &mut Circuit,
    table: &TypeTable,
    of: DataId,
    height: u32,
) -> Result<BoundedTree, NoMemory>
    requires fits { BoundedFits table.now trees.old circuit.old }
    requires of { of.0 < length table.now.datatypes }
    requires room { length circuit.old + unknown_gates bounded_sense table.now of height ≤ 2 ^ 30 }
    ensures moves { Moves bounded_sense table.now trees.old circuit.old trees.new circuit.new
        (unknown_gates bounded_sense table.now of height) }
    ensures looks { SameLooks bounded_sense trees.old trees.new }
    ensures answer { IfOk result (λ t. IsUnknown bounded_sense table.now trees.old circuit.old trees.new circuit.new
        t of height) }
{
    if has_value(table, Sort::Tree(of), height) {
        let tree = full_tree(trees, circuit, table, of, height)?;
        return Ok(tree);
    }
    let alternatives = Items::new(circuit.allocator());
    let tree = trees.push(Node {
        of,
        height: u64::from(height),
        alternatives,
    })?;
    if height == 0 {
        return Ok(tree);
    }
    trees.ok = circuit.truth().negated();
    Ok(tree)
}

/// A tree of a datatype that has values up to this height: it can have each of them, and no other.
#[cycle(full)]
fn full_tree(
    trees: &mut Trees,
    circuit: &mut Circuit,
    table: &TypeTable,
    of: DataId,
    height: u32,
) -> Result<BoundedTree, NoMemory>
    requires fits { BoundedFits table.now trees.old circuit.old }
    requires of { of.0 < length table.now.datatypes }
    requires possible { has_value_spec table.now height (sort.Tree of) ≡ true }
    requires room { length circuit.old + 4 * bits table.now height (sort.Tree of) ≤ 2 ^ 30 }
    ensures moves { Moves bounded_sense table.now trees.old circuit.old trees.new circuit.new
        (4 * bits table.now height (sort.Tree of)) }
    ensures ok { trees.new.ok ≡ trees.old.ok }
    ensures full { IfOk result (λ t. IsFull table.now circuit.old trees.new circuit.new height (sort.Tree of)
        (symbol.Tree t)) }
{
    let ctors = possible(circuit.allocator(), table, of, height - 1)?;
    let lits = choices(circuit, ctors.len())?;
    let alternatives = full_alternatives(
        trees,
        circuit,
        table,
        ctors.as_slice(),
        lits.as_slice(),
        height - 1,
    )?;
    let tree = trees.push(Node {
        of,
        height: u64::from(height),
        alternatives,
    })?;
    Ok(tree)
}

/// These constructors with these literals, each with fields that can have any values up to this height.
#[cycle(full)]
fn full_alternatives(
    trees: &mut Trees,
    circuit: &mut Circuit,
    table: &TypeTable,
    ctors: &[CtorId],
    lits: &[Lit],
    height: u32,
) -> Result<Items<Alternative>, NoMemory>
    requires fits { BoundedFits table.now trees.old circuit.old }
    requires ctors { AllPossible table.now height ctors.now }
    requires lits { length lits.now ≡ length ctors.now }
    requires room { length circuit.old + 4 * total (ctor_bits table.now height) ctors.now ≤ 2 ^ 30 }
    ensures moves { Moves bounded_sense table.now trees.old circuit.old trees.new circuit.new
        (4 * total (ctor_bits table.now height) ctors.now) }
    ensures ok { trees.new.ok ≡ trees.old.ok }
    ensures full { IfOk result (λ ys. AreFullAlternatives table.now circuit.old trees.new circuit.new height
        ctors.now lits.now ys) }
{
    let mut alternatives = Items::new(circuit.allocator());
    for place in 0..ctors.len() {
        let ctor = ctors[place];
        let lit = lits[place];
        let sorts = table.ctor(ctor).fields.as_slice();
        let fields = full_fields(trees, circuit, table, sorts, height)?;
        alternatives.push(Alternative { ctor, lit, fields })?;
    }
    Ok(alternatives)
}

/// Symbols of these sorts that can have any values up to this height.
#[cycle(full)]
fn full_fields(
    trees: &mut Trees,
    circuit: &mut Circuit,
    table: &TypeTable,
    sorts: &[Sort],
    height: u32,
) -> Result<Symbols<BoundedTree>, NoMemory>
    requires fits { BoundedFits table.now trees.old circuit.old }
    requires sorts { list_all (is_sort table.now.datatypes) sorts.now ≡ true }
    requires possible { list_all (has_value_spec table.now height) sorts.now ≡ true }
    requires room { length circuit.old + 4 * total (bits table.now height) sorts.now ≤ 2 ^ 30 }
    ensures moves { Moves bounded_sense table.now trees.old circuit.old trees.new circuit.new
        (4 * total (bits table.now height) sorts.now) }
    ensures ok { trees.new.ok ≡ trees.old.ok }
    ensures full { IfOk result (λ xs. AreFull table.now circuit.old trees.new circuit.new height sorts.now xs) }
{
    let mut fields = Items::new(circuit.allocator());
    for place in 0..sorts.len() {
        let field = full_symbol(trees, circuit, table, sorts[place], height)?;
        fields.push(field)?;
    }
    Ok(fields)
}

/// A symbol of the sort that can have any value up to this height.
#[cycle(full)]
fn full_symbol(
    trees: &mut Trees,
    circuit: &mut Circuit,
    table: &TypeTable,
    sort: Sort,
    height: u32,
) -> Result<Symbol<BoundedTree>, NoMemory>
    requires fits { BoundedFits table.now trees.old circuit.old }
    requires sorts { is_sort table.now.datatypes sort ≡ true }
    requires possible { has_value_spec table.now height sort ≡ true }
    requires room { length circuit.old + 4 * bits table.now height sort ≤ 2 ^ 30 }
    ensures moves { Moves bounded_sense table.now trees.old circuit.old trees.new circuit.new
        (4 * bits table.now height sort) }
    ensures ok { trees.new.ok ≡ trees.old.ok }
    ensures full { IfOk result (λ x. IsFull table.now circuit.old trees.new circuit.new height sort x) }
{
    match sort {
        Sort::Tree(of) => {
            let tree = full_tree(trees, circuit, table, of, height)?;
            Ok(Symbol::Tree(tree))
        }
        _ => {
            let plain = unknown_plain(circuit, sort)?;
            Ok(plain)
        }
    }
}
