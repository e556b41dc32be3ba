//! Whether a tree is a proper subtree of another.

ghost use Rattle.std.specs.Prelude.{◌≡◌, ◌+◌, ◌*◌, ◌^◌, ◌≤◌, [], ◌∷◌, length, IfOk, OnOk};
ghost use Rattle.pp_domain.specs.Allowance.{below_gates};
ghost use Rattle.pp_domain.specs.Answers.{AreOfOneData, IsComparison};
ghost use Rattle.pp_domain.specs.Moves.{Moves, OneComparison};
ghost use Rattle.pp_named_trees.specs.Meaning.{NamedFits, named_sense};
ghost use Rattle.pp_named_below.specs.declared.search.TheConstants.{FIELD_GATES as field_gates};
ghost use Rattle.pp_named_below.specs.Search.{IsStart};

use crate::NoMemory;
use crate::fields::fields_of;
use crate::search::{FIELD_GATES, Search, Visit, take_fields};
use pp_clause::Lit;
use pp_gate::Circuit;
use pp_list::Items;
use pp_named_trees::{NamedTree, NamedTrees};
use pp_prog::TypeTable;

/// A search from this tree on, after so many looks: the tree alone is on the list.
fn start(circuit: &Circuit, looks: usize, old: &NamedTree) -> Result<Search, NoMemory>
    requires few { 192 + 128 * looks ≤ 2 ^ 30 }
    ensures { IfOk result (λ s. IsStart circuit.now looks old.now s) }
{
    let path = circuit.truth();
    let tree = *old;
    let mut visits = Items::new(circuit.allocator());
    visits.push(Visit { tree, path })?;
    Ok(Search {
        visits,
        any: path.negated(),
        left: (192 + 128 * looks) / FIELD_GATES,
    })
}

/// A literal that is true only where `new` is a proper subtree of `old`. The two have one datatype. No tree is looked
/// at: the search goes along those that were, and takes up as many fields as the gates allow that a comparison may
/// add. On `NoMemory` gates may have come in.
pub fn below(
    trees: &NamedTrees,
    circuit: &mut Circuit,
    table: &TypeTable,
    new: &NamedTree,
    old: &NamedTree,
) -> Result<Lit, NoMemory>
    requires fits { NamedFits table.now trees.now circuit.old }
    requires trees { AreOfOneData named_sense table.now trees.now new.now old.now }
    requires room { length circuit.old + below_gates named_sense table.now trees.now new.now old.now ≤ 2 ^ 30 }
    ensures moves { Moves named_sense table.now trees.now circuit.old trees.now circuit.new
        (below_gates named_sense table.now trees.now new.now old.now) }
    ensures looks { OnOk result (OneComparison named_sense trees.now trees.now) }
    ensures answer { IfOk result (λ l. IsComparison named_sense table.now trees.now circuit.old trees.now circuit.new
        new.now old.now l) }
{
    let expansions = trees.expansions.as_slice();
    let mut search = start(circuit, expansions.len(), old)?;
    let mut next = 0;
    while next < search.visits.len() {
        let visit = search.visits.as_slice()[next];
        let fields = fields_of(circuit.allocator(), expansions, &visit.tree)?;
        take_fields(&mut search, circuit, new, visit.path, fields.as_slice())?;
        next += 1;
    }
    Ok(search.any)
}
