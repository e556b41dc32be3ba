//! The fields of a tree that was looked at, as far as they are trees.

ghost use Rattle.std.specs.Prelude.{◌≡◌, [], ◌∷◌, ◌++◌, IfOk, OnOk};
ghost use Rattle.pp_named_below.specs.Fields.{AreTreeFields, fields_among, trees_among};

use crate::NoMemory;
use pp_clause::Lit;
use pp_domain::Symbol;
use pp_list::Items;
use pp_named_trees::find::place_of;
use pp_named_trees::{Alternative, Expansion, NamedTree};
use std::alloc::Global;

/// A field that is a tree.
#[derive(Clone, Copy)]
pub struct TreeField {
    /// The literal of its constructor: true where the tree that it is a field of has that constructor.
    pub lit: Lit,
    /// The field.
    pub tree: NamedTree,
}

/// Adds the symbol to the list, if it is a tree. On `NoMemory` nothing has changed.
fn push_tree(
    fields: &mut Items<TreeField>,
    lit: Lit,
    symbol: &Symbol<NamedTree>,
) -> Result<(), NoMemory>
    ensures { OnOk result (fields.new ≡ fields.old ++ trees_among lit (symbol.now ∷ [])) }
{
    match symbol {
        Symbol::Tree(tree) => {
            fields.push(TreeField { lit, tree: *tree })?;
        }
        Symbol::Word(_) | Symbol::Bit(_) => {}
    }
    Ok(())
}

/// Adds the trees among the symbols to the list. On `NoMemory` some of them were added.
fn push_trees(
    fields: &mut Items<TreeField>,
    lit: Lit,
    symbols: &[Symbol<NamedTree>],
) -> Result<(), NoMemory>
    ensures { OnOk result (fields.new ≡ fields.old ++ trees_among lit symbols.now) }
{
    for place in 0..symbols.len() {
        push_tree(fields, lit, &symbols[place])?;
    }
    Ok(())
}

/// The fields of all these constructors that are trees.
fn fields_of_all(alloc: Global, alternatives: &[Alternative]) -> Result<Items<TreeField>, NoMemory>
    ensures { IfOk result (λ fs. fs ≡ fields_among alternatives.now) }
{
    let mut fields = Items::new(alloc);
    for place in 0..alternatives.len() {
        let x = &alternatives[place];
        push_trees(&mut fields, x.lit, x.fields.as_slice())?;
    }
    Ok(fields)
}

/// The fields of the tree that are trees: none where it wasn't looked at.
pub fn fields_of(
    alloc: Global,
    expansions: &[Expansion],
    tree: &NamedTree,
) -> Result<Items<TreeField>, NoMemory>
    ensures { IfOk result (λ fs. AreTreeFields expansions.now tree.now fs) }
{
    let place = place_of(expansions, tree);
    if place < expansions.len() {
        let fields = fields_of_all(alloc, expansions[place].alternatives.as_slice())?;
        Ok(fields)
    } else {
        Ok(Items::new(alloc))
    }
}
