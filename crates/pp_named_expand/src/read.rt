//! Constructors and fields of trees.

ghost use Rattle.std.specs.Prelude.{◌≡◌, ◌+◌, ◌^◌, ◌≤◌, length, IfOk};
ghost use Rattle.pp_prog.specs.declared.sort.Sort.{Sort};
ghost use Rattle.pp_domain.specs.Allowance.{look_at_gates};
ghost use Rattle.pp_domain.specs.Answers.{HasField, IsCtorOf, IsCtorTest, IsFieldRead};
ghost use Rattle.pp_domain.specs.Moves.{Moves};
ghost use Rattle.pp_named_trees.specs.Arena.{IsExpanded, IsKept};
ghost use Rattle.pp_named_trees.specs.Meaning.{NamedFits, named_sense};
ghost use Rattle.pp_named_trees.specs.Parts.{lowered as lowered_spec};
ghost use Rattle.pp_named_expand.specs.Reads.{IsCtorIn};

use crate::NoMemory;
use crate::look::expand;
use pp_clause::Lit;
use pp_domain::Symbol;
use pp_gate::Circuit;
use pp_named_trees::find::place_of;
use pp_named_trees::{Alternative, NamedTree, NamedTrees};
use pp_prog::{CtorId, TypeTable};

/// The constructor of a tree that was looked at.
fn ctor_in<'a>(
    trees: &'a NamedTrees,
    circuit: &Circuit,
    table: &TypeTable,
    tree: &NamedTree,
    ctor: CtorId,
) -> &'a Alternative
    requires fits { NamedFits table.now trees.now circuit.now }
    requires expanded { IsExpanded trees.now.expansions tree.now }
    requires ctor { IsCtorOf table.now ctor tree.now.of }
    ensures { IsCtorIn trees.now.expansions tree.now ctor result.now }
{
    let place = place_of(trees.expansions.as_slice(), tree);
    let first = table.datatype(tree.of).first.0;
    let alternatives = trees.expansions.as_slice()[place].alternatives.as_slice();
    &alternatives[(ctor.0 - first) as usize]
}

/// The symbol with this height, if it is a tree.
fn lowered(symbol: &Symbol<NamedTree>, height: u64) -> Symbol<NamedTree>
    ensures { result ≡ lowered_spec height symbol.now }
{
    match symbol {
        Symbol::Word(word) => Symbol::Word(*word),
        Symbol::Bit(lit) => Symbol::Bit(*lit),
        Symbol::Tree(tree) => Symbol::Tree(NamedTree {
            of: tree.of,
            height,
            name: tree.name,
        }),
    }
}

/// Whether the tree has this constructor, which is one of its datatype. On `NoMemory` the tree may not be expanded.
pub fn is_ctor(
    trees: &mut NamedTrees,
    circuit: &mut Circuit,
    table: &TypeTable,
    tree: &NamedTree,
    ctor: CtorId,
) -> Result<Lit, NoMemory>
    requires fits { NamedFits table.now trees.old circuit.old }
    requires tree { IsKept trees.old.nodes tree.now }
    requires ctor { IsCtorOf table.now ctor tree.now.of }
    requires room { (IsExpanded trees.old.expansions tree.now → ⊥)
        → length circuit.old + look_at_gates named_sense table.now trees.old tree.now ≤ 2 ^ 30 }
    ensures moves { Moves named_sense table.now trees.old circuit.old trees.new circuit.new
        (look_at_gates named_sense table.now trees.old tree.now) }
    ensures still { IsExpanded trees.old.expansions tree.now → circuit.new ≡ circuit.old }
    ensures answer { IfOk result (λ l. IsCtorTest named_sense table.now trees.old circuit.old trees.new circuit.new
        tree.now ctor l) }
{
    expand(trees, circuit, table, tree)?;
    let found = ctor_in(trees, circuit, table, tree, ctor);
    Ok(found.lit)
}

/// The field at a place of the constructor, which is one of the tree's datatype; where the tree has another constructor
/// it is blank. On `NoMemory` the tree may not be expanded.
pub fn field(
    trees: &mut NamedTrees,
    circuit: &mut Circuit,
    table: &TypeTable,
    tree: &NamedTree,
    ctor: CtorId,
    place: u32,
) -> Result<Symbol<NamedTree>, NoMemory>
    requires fits { NamedFits table.now trees.old circuit.old }
    requires tree { IsKept trees.old.nodes tree.now }
    requires ctor { IsCtorOf table.now ctor tree.now.of }
    requires place { (s : Sort) × HasField table.now ctor place s }
    requires room { (IsExpanded trees.old.expansions tree.now → ⊥)
        → length circuit.old + look_at_gates named_sense table.now trees.old tree.now ≤ 2 ^ 30 }
    ensures moves { Moves named_sense table.now trees.old circuit.old trees.new circuit.new
        (look_at_gates named_sense table.now trees.old tree.now) }
    ensures still { IsExpanded trees.old.expansions tree.now → circuit.new ≡ circuit.old }
    ensures answer { IfOk result (λ r. (s : Sort) → HasField table.now ctor place s → IsFieldRead named_sense table.now
        trees.old circuit.old trees.new circuit.new tree.now ctor place s r) }
{
    expand(trees, circuit, table, tree)?;
    let found = ctor_in(trees, circuit, table, tree, ctor);
    let symbol = &found.fields.as_slice()[place as usize];
    Ok(lowered(symbol, tree.height.saturating_sub(1)))
}
