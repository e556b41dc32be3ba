//! Trees with a known constructor.

ghost use Rattle.std.specs.Prelude.{◌≡◌, ◌+◌, ◌^◌, ◌<◌, ◌≤◌, length, map, IfOk};
ghost use Rattle.pp_prog.specs.Values.{greatest};
ghost use Rattle.pp_domain.specs.Allowance.{construct_gates};
ghost use Rattle.pp_domain.specs.Answers.{CanConstruct, IsConstruct, IsCtorOf};
ghost use Rattle.pp_domain.specs.Moves.{Moves};
ghost use Rattle.pp_domain.specs.Symbols.{symbol_height};
ghost use Rattle.pp_named_trees.specs.Meaning.{NamedFits, named_sense};
ghost use Rattle.pp_named_contents.specs.Known.{AreFieldsOf};
ghost use Rattle.pp_named_expand.specs.Constructed.{IsKnownNew, known_gates};

use crate::NoMemory;
use crate::entry::enter;
use crate::groups::touch;
use pp_domain::{Symbol, Symbols, short_word};
use pp_gate::Circuit;
use pp_named_contents::{keep_all, known_contents};
use pp_named_instances::make_levels;
use pp_named_trees::{Expansion, NamedTree, NamedTrees, Node};
use pp_prog::{CtorId, DataId, TypeTable};
use std::alloc::AllocError;

/// The greatest height of the symbols, and 0 of none.
fn highest(trees: &NamedTrees, fields: &[Symbol<NamedTree>]) -> u64
    ensures { result ≡ greatest (map (symbol_height named_sense trees.now) fields.now) }
{
    let mut most = 0u64;
    for field in fields {
        most = most.max(height_of(trees, field));
    }
    most
}

/// The height of a symbol: that of its tree, and 0 of a word and a literal.
fn height_of(trees: &NamedTrees, symbol: &Symbol<NamedTree>) -> u64
    ensures { result ≡ symbol_height named_sense trees.now symbol.now }
{
    match symbol {
        Symbol::Word(_) => 0,
        Symbol::Bit(_) => 0,
        Symbol::Tree(tree) => tree.height,
    }
}

/// A new tree that has this constructor with these fields, before it is entered. On `NoMemory` some of what it needs
/// may have come in.
fn known_new(
    trees: &mut NamedTrees,
    circuit: &mut Circuit,
    table: &TypeTable,
    of: DataId,
    ctor: CtorId,
    fields: &Symbols<NamedTree>,
) -> Result<Expansion, NoMemory>
    requires fits { NamedFits table.now trees.old circuit.old }
    requires of { of.0 < length table.now.datatypes }
    requires ctor { IsCtorOf table.now ctor of }
    requires fields { AreFieldsOf table.now circuit.old ctor fields.now }
    requires room { length circuit.old + known_gates table.now of ≤ 2 ^ 30 }
    ensures moves { Moves named_sense table.now trees.old circuit.old trees.new circuit.new
        (known_gates table.now of) }
    ensures known { IfOk result (λ y. IsKnownNew table.now trees.old circuit.old trees.new circuit.new of ctor
        fields.now y) }
{
    touch(trees, circuit, table)?;
    make_levels(trees, circuit, table, of)?;
    let name = short_word(circuit, trees.low)?;
    let alternatives = known_contents(circuit, table, of, ctor, fields)?;
    trees.keep(&Node { of, name })?;
    keep_all(trees, circuit, alternatives.as_slice())?;
    Ok(Expansion {
        of,
        name,
        alternatives,
    })
}

/// A tree that has this constructor with these fields, whose height is one more than the greatest of theirs. Where that
/// is no `u64` the answer is `NoMemory`. On `NoMemory` gates, inputs, levels and trees may have come in.
pub fn construct(
    trees: &mut NamedTrees,
    circuit: &mut Circuit,
    table: &TypeTable,
    ctor: CtorId,
    fields: &Symbols<NamedTree>,
) -> Result<NamedTree, NoMemory>
    requires fits { NamedFits table.now trees.old circuit.old }
    requires fields { CanConstruct named_sense table.now trees.old circuit.old ctor fields.now }
    requires room { length circuit.old + construct_gates named_sense table.now trees.old ctor ≤ 2 ^ 30 }
    ensures moves { Moves named_sense table.now trees.old circuit.old trees.new circuit.new
        (construct_gates named_sense table.now trees.old ctor) }
    ensures answer { IfOk result (λ t. IsConstruct named_sense table.now trees.old circuit.old trees.new circuit.new
        ctor fields.now t) }
{
    let highest = highest(trees, fields.as_slice());
    if highest == u64::MAX {
        return Err(AllocError);
    }
    let of = table.ctor(ctor).of;
    let new = known_new(trees, circuit, table, of, ctor, fields)?;
    let name = new.name;
    enter(trees, circuit, table, new)?;
    Ok(NamedTree {
        of,
        height: highest + 1,
        name,
    })
}
