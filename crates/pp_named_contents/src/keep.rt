//! The trees of fields are kept.

ghost use Rattle.std.specs.Prelude.{[], ◌∷◌, OnOk};
ghost use Rattle.pp_named_contents.specs.Kept.{AreKept, AreNamed, FieldsKept, FieldsNamed, Keeps};

use crate::NoMemory;
use pp_domain::Symbol;
use pp_gate::Circuit;
use pp_named_trees::{Alternative, NamedTree, NamedTrees, Node};

/// Keeps the symbol's tree, if it is one. On `NoMemory` nothing has changed.
fn keep_symbol(
    trees: &mut NamedTrees,
    circuit: &Circuit,
    symbol: &Symbol<NamedTree>,
) -> Result<(), NoMemory>
    requires named { AreNamed circuit.now (symbol.now ∷ []) }
    ensures keeps { Keeps circuit.now trees.old trees.new }
    ensures kept { OnOk result (AreKept trees.new.nodes (symbol.now ∷ [])) }
{
    match symbol {
        Symbol::Tree(tree) => {
            trees.keep(&Node {
                of: tree.of,
                name: tree.name,
            })?;
        }
        Symbol::Word(_) | Symbol::Bit(_) => {}
    }
    Ok(())
}

/// Keeps the trees among the symbols. On `NoMemory` some of them are kept.
fn keep_symbols(
    trees: &mut NamedTrees,
    circuit: &Circuit,
    symbols: &[Symbol<NamedTree>],
) -> Result<(), NoMemory>
    requires named { AreNamed circuit.now symbols.now }
    ensures keeps { Keeps circuit.now trees.old trees.new }
    ensures kept { OnOk result (AreKept trees.new.nodes symbols.now) }
{
    for place in 0..symbols.len() {
        keep_symbol(trees, circuit, &symbols[place])?;
    }
    Ok(())
}

/// Keeps the trees among the fields of these constructors. On `NoMemory` some of them are kept.
pub fn keep_all(
    trees: &mut NamedTrees,
    circuit: &Circuit,
    alternatives: &[Alternative],
) -> Result<(), NoMemory>
    requires named { FieldsNamed circuit.now alternatives.now }
    ensures keeps { Keeps circuit.now trees.old trees.new }
    ensures kept { OnOk result (FieldsKept trees.new.nodes alternatives.now) }
{
    for place in 0..alternatives.len() {
        keep_symbols(trees, circuit, alternatives[place].fields.as_slice())?;
    }
    Ok(())
}
