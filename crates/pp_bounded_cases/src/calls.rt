//! The calls of named trees, each of which gives one symbol more.

ghost use Rattle.std.specs.Prelude.{IfOk, IsTrue, OnOk};
ghost use Rattle.pp_domain.specs.Answers.{CanConstruct, IsCtorOf};
ghost use Rattle.pp_named_trees.specs.Meaning.{named_sense};
ghost use Rattle.pp_bounded_samples.specs.Kept.{IsPlaceIn};
ghost use Rattle.pp_bounded_samples.specs.Sample.{IsSample};
ghost use Rattle.pp_bounded_cases.specs.Registers.{AreHeld, HasRoom, IsRegister, MayBe};

use crate::case::number;
use crate::registers::{literal_at, symbol_at, tree_at, word_at};
use anyhow::{Result, bail, ensure};
use pp_bounded_samples::looks::{field_count, is_ctor_of};
use pp_domain::{Symbol, Symbols};
use pp_gate::{Circuit, Word};
use pp_list::Items;
use pp_named_below::below;
use pp_named_expand::{construct, field, is_ctor};
use pp_named_trees::{NamedTree, NamedTrees};
use pp_prog::{CtorId, DataId, Sort, TypeTable};

/// The most gates of a circuit, and the most trees that were looked at, where a call may begin.
const MOST: u32 = 1 << 29;

const LOOKS: usize = 1000;

/// Fails where a call may have no room.
fn room(trees: &NamedTrees, circuit: &Circuit) -> Result<()>
    ensures { OnOk result (HasRoom trees.now circuit.now) }
{
    ensure!(circuit.gates() <= MOST, "too many gates");
    ensure!(trees.expansions.len() <= LOOKS, "too many looks");
    Ok(())
}

/// The call that the word names, with the arguments that the last of the words spell.
pub fn call(
    trees: &mut NamedTrees,
    circuit: &mut Circuit,
    table: &TypeTable,
    symbols: &mut Symbols<NamedTree>,
    word: &str,
    words: &mut Vec<&str>,
) -> Result<()>
    requires sample { IsSample table.now }
    requires held { AreHeld table.now trees.old circuit.old symbols.old }
    ensures { OnOk result (AreHeld table.now trees.new circuit.new symbols.new) }
{
    room(trees, circuit)?;
    match word {
        "number" => add_number(trees, circuit, table, symbols),
        "constant" => add_constant(trees, circuit, table, symbols, words),
        "unknown" => add_unknown(trees, circuit, table, symbols, words),
        "construct" => add_construct(trees, circuit, table, symbols, words),
        "has" => add_test(trees, circuit, table, symbols, words),
        "field" => add_field(trees, circuit, table, symbols, words),
        "merge" => add_merge(trees, circuit, table, symbols, words),
        "same" => add_equality(trees, circuit, table, symbols, words),
        "equal" => add_word_equality(trees, circuit, table, symbols, words),
        "below" => add_below(trees, circuit, table, symbols, words),
        _ => bail!("no such call"),
    }
}

/// A number of which nothing is known.
fn add_number(
    trees: &mut NamedTrees,
    circuit: &mut Circuit,
    table: &TypeTable,
    symbols: &mut Symbols<NamedTree>,
) -> Result<()>
    requires held { AreHeld table.now trees.old circuit.old symbols.old }
    requires room { HasRoom trees.old circuit.old }
    ensures { OnOk result (AreHeld table.now trees.new circuit.new symbols.new) }
{
    let _table = table;
    let _trees = &trees.ok;
    let digits = pp_bits::inputs(circuit, 32)?;
    symbols.push(Symbol::Word(Word::from_lits(&digits)))?;
    Ok(())
}

/// `constant N`: the number N.
fn add_constant(
    trees: &mut NamedTrees,
    circuit: &mut Circuit,
    table: &TypeTable,
    symbols: &mut Symbols<NamedTree>,
    words: &mut Vec<&str>,
) -> Result<()>
    requires held { AreHeld table.now trees.old circuit.old symbols.old }
    requires room { HasRoom trees.old circuit.old }
    ensures { OnOk result (AreHeld table.now trees.new circuit.new symbols.new) }
{
    let _table = table;
    let _trees = &trees.ok;
    let value = u64::from(number(words)?);
    let digits = pp_bits::constant(circuit, value, 32)?;
    symbols.push(Symbol::Word(Word::from_lits(&digits)))?;
    Ok(())
}

/// `unknown D`: a tree of the datatype D of which nothing is known.
fn add_unknown(
    trees: &mut NamedTrees,
    circuit: &mut Circuit,
    table: &TypeTable,
    symbols: &mut Symbols<NamedTree>,
    words: &mut Vec<&str>,
) -> Result<()>
    requires held { AreHeld table.now trees.old circuit.old symbols.old }
    requires room { HasRoom trees.old circuit.old }
    ensures { OnOk result (AreHeld table.now trees.new circuit.new symbols.new) }
{
    let of = DataId(number(words)?);
    let tree = trees.unknown(circuit, table, of, 0)?;
    symbols.push(Symbol::Tree(tree))?;
    Ok(())
}

/// `construct C X..`: a tree with the constructor C and these fields.
fn add_construct(
    trees: &mut NamedTrees,
    circuit: &mut Circuit,
    table: &TypeTable,
    symbols: &mut Symbols<NamedTree>,
    words: &mut Vec<&str>,
) -> Result<()>
    requires sample { IsSample table.now }
    requires held { AreHeld table.now trees.old circuit.old symbols.old }
    requires room { HasRoom trees.old circuit.old }
    ensures { OnOk result (AreHeld table.now trees.new circuit.new symbols.new) }
{
    let ctor = CtorId(number(words)?);
    let fields = fields_for(trees, circuit, table, symbols.as_slice(), ctor, words)?;
    let tree = construct(trees, circuit, table, ctor, &fields)?;
    symbols.push(Symbol::Tree(tree))?;
    Ok(())
}

/// `has T C`: whether the tree T has the constructor C.
fn add_test(
    trees: &mut NamedTrees,
    circuit: &mut Circuit,
    table: &TypeTable,
    symbols: &mut Symbols<NamedTree>,
    words: &mut Vec<&str>,
) -> Result<()>
    requires sample { IsSample table.now }
    requires held { AreHeld table.now trees.old circuit.old symbols.old }
    requires room { HasRoom trees.old circuit.old }
    ensures { OnOk result (AreHeld table.now trees.new circuit.new symbols.new) }
{
    let tree = tree_at(symbols.as_slice(), words)?;
    let ctor = ctor_at(table, &tree, words)?;
    let has = is_ctor(trees, circuit, table, &tree, ctor)?;
    symbols.push(Symbol::Bit(has))?;
    Ok(())
}

/// `field T C P`: the field of the tree T at the place P of the constructor C.
fn add_field(
    trees: &mut NamedTrees,
    circuit: &mut Circuit,
    table: &TypeTable,
    symbols: &mut Symbols<NamedTree>,
    words: &mut Vec<&str>,
) -> Result<()>
    requires sample { IsSample table.now }
    requires held { AreHeld table.now trees.old circuit.old symbols.old }
    requires room { HasRoom trees.old circuit.old }
    ensures { OnOk result (AreHeld table.now trees.new circuit.new symbols.new) }
{
    let tree = tree_at(symbols.as_slice(), words)?;
    let ctor = ctor_at(table, &tree, words)?;
    let place = place_at(table, ctor, words)?;
    let part = field(trees, circuit, table, &tree, ctor, place)?;
    symbols.push(part)?;
    Ok(())
}

/// `merge L T U`: the tree T where the literal L is true, and else U.
fn add_merge(
    trees: &mut NamedTrees,
    circuit: &mut Circuit,
    table: &TypeTable,
    symbols: &mut Symbols<NamedTree>,
    words: &mut Vec<&str>,
) -> Result<()>
    requires held { AreHeld table.now trees.old circuit.old symbols.old }
    requires room { HasRoom trees.old circuit.old }
    ensures { OnOk result (AreHeld table.now trees.new circuit.new symbols.new) }
{
    let choice = literal_at(symbols.as_slice(), words)?;
    let left = tree_at(symbols.as_slice(), words)?;
    let right = tree_at(symbols.as_slice(), words)?;
    if left.of.0 != right.of.0 {
        bail!("two datatypes");
    }
    let tree = trees.merge(circuit, table, choice, &left, &right)?;
    symbols.push(Symbol::Tree(tree))?;
    Ok(())
}

/// `same T U`: whether the trees T and U are equal.
fn add_equality(
    trees: &mut NamedTrees,
    circuit: &mut Circuit,
    table: &TypeTable,
    symbols: &mut Symbols<NamedTree>,
    words: &mut Vec<&str>,
) -> Result<()>
    requires held { AreHeld table.now trees.old circuit.old symbols.old }
    requires room { HasRoom trees.old circuit.old }
    ensures { OnOk result (AreHeld table.now trees.new circuit.new symbols.new) }
{
    let left = tree_at(symbols.as_slice(), words)?;
    let right = tree_at(symbols.as_slice(), words)?;
    if left.of.0 != right.of.0 {
        bail!("two datatypes");
    }
    let same = trees.equal(circuit, table, &left, &right)?;
    symbols.push(Symbol::Bit(same))?;
    Ok(())
}

/// `equal X Y`: whether the numbers X and Y are equal.
fn add_word_equality(
    trees: &mut NamedTrees,
    circuit: &mut Circuit,
    table: &TypeTable,
    symbols: &mut Symbols<NamedTree>,
    words: &mut Vec<&str>,
) -> Result<()>
    requires held { AreHeld table.now trees.old circuit.old symbols.old }
    requires room { HasRoom trees.old circuit.old }
    ensures { OnOk result (AreHeld table.now trees.new circuit.new symbols.new) }
{
    let _table = table;
    let _trees = &trees.ok;
    let left = word_at(symbols.as_slice(), words)?;
    let right = word_at(symbols.as_slice(), words)?;
    let same = pp_wordgate::equal(circuit, left, right)?;
    symbols.push(Symbol::Bit(same))?;
    Ok(())
}

/// `below T U`: whether the tree T is a proper subtree of U, as far as the trees tell that were looked at.
fn add_below(
    trees: &mut NamedTrees,
    circuit: &mut Circuit,
    table: &TypeTable,
    symbols: &mut Symbols<NamedTree>,
    words: &mut Vec<&str>,
) -> Result<()>
    requires held { AreHeld table.now trees.old circuit.old symbols.old }
    requires room { HasRoom trees.old circuit.old }
    ensures { OnOk result (AreHeld table.now trees.new circuit.new symbols.new) }
{
    let new = tree_at(symbols.as_slice(), words)?;
    let old = tree_at(symbols.as_slice(), words)?;
    if new.of.0 != old.of.0 {
        bail!("two datatypes");
    }
    let goes_down = below(trees, circuit, table, &new, &old)?;
    symbols.push(Symbol::Bit(goes_down))?;
    Ok(())
}

/// Symbols for the fields of the constructor, whose numbers the last of the words spell.
fn fields_for(
    trees: &NamedTrees,
    circuit: &Circuit,
    table: &TypeTable,
    symbols: &[Symbol<NamedTree>],
    ctor: CtorId,
    words: &mut Vec<&str>,
) -> Result<Symbols<NamedTree>>
    requires held { AreHeld table.now trees.now circuit.now symbols.now }
    ensures { IfOk result (λ fields. CanConstruct named_sense table.now trees.now circuit.now ctor fields) }
{
    let _trees = trees;
    ensure!((ctor.0 as usize) < table.ctors.len(), "no such constructor");
    let sorts = table.ctor(ctor).fields.as_slice();
    let mut fields = Items::new(circuit.allocator());
    for place in 0..sorts.len() {
        let symbol = field_at(symbols, sorts[place], words)?;
        fields.push(symbol)?;
    }
    Ok(fields)
}

/// The symbol of this sort whose number the last word spells.
fn field_at(
    symbols: &[Symbol<NamedTree>],
    sort: Sort,
    words: &mut Vec<&str>,
) -> Result<Symbol<NamedTree>>
    ensures register { IfOk result (λ x. IsRegister symbols.now x) }
    ensures sort { IfOk result (λ x. MayBe sort x) }
{
    let symbol = symbol_at(symbols, words)?;
    ensure!(is_of_sort(&symbol, sort), "a field of another sort");
    Ok(symbol)
}

/// The constructor of the tree's datatype that the last word spells.
fn ctor_at(table: &TypeTable, tree: &NamedTree, words: &mut Vec<&str>) -> Result<CtorId>
    ensures { IfOk result (λ c. IsCtorOf table.now c tree.now.of) }
{
    let ctor = CtorId(number(words)?);
    ensure!(is_ctor_of(table, ctor, tree.of), "no such constructor");
    Ok(ctor)
}

/// The place of a field of the constructor that the last word spells.
fn place_at(table: &TypeTable, ctor: CtorId, words: &mut Vec<&str>) -> Result<u32>
    ensures { IfOk result (λ p. IsPlaceIn table.now ctor p) }
{
    let place = number(words)?;
    ensure!(place < field_count(table, ctor), "no such field");
    Ok(place)
}

/// Whether the symbol is of the sort.
fn is_of_sort(symbol: &Symbol<NamedTree>, sort: Sort) -> bool
    ensures { IsTrue result → MayBe sort symbol.now }
{
    match (symbol, sort) {
        (Symbol::Word(_), Sort::Int) => true,
        (Symbol::Bit(_), Sort::Bool) => true,
        (Symbol::Tree(tree), Sort::Tree(of)) => tree.of.0 == of.0,
        _ => false,
    }
}
