//! Whether a tree that was looked at comes after its fields.

ghost use Rattle.std.specs.Prelude.{◌≡◌, ◌↔◌, ◌+◌, ◌^◌, ◌≤◌, length, IsTrue, IfOk};
ghost use Rattle.pp_gate.specs.Circuit.{IsCircuit, IsOf};
ghost use Rattle.pp_gate.specs.Growth.{AddsGates};
ghost use Rattle.pp_bounded_trees.specs.Possible.{total};
ghost use Rattle.pp_named_order.specs.Order.{OneGroup};
ghost use Rattle.pp_named_trees.specs.Arena.{IsName};
ghost use Rattle.pp_named_instances.specs.OrderTests.{AllBeforeTest, AreBeforeTest, AreCtors, AreFields, AreLevels};
ghost use Rattle.pp_named_instances.specs.OrderTests.{IsBeforeTest, IsField, IsLevelWord, IsOrderTest, IsPlace};
ghost use Rattle.pp_named_instances.specs.OrderTests.{before_gates, fields_before_gates, order_gates, place_gates};
ghost use Rattle.pp_domain.specs.declared.symbol.Symbol.TheVariants as symbol;

use crate::NoMemory;
use pp_clause::Lit;
use pp_domain::Symbol;
use pp_gate::{Circuit, Word};
use pp_list::at;
use pp_named_trees::{Alternative, Expansion, Level, NamedTree};
use pp_prog::DataId;

/// Whether the two datatypes are of one group.
pub fn is_one_group(groups: &[u32], d: DataId, e: DataId) -> bool
    ensures { IsTrue result ↔ OneGroup groups.now d e }
{
    match (at(groups, d.0 as usize), at(groups, e.0 as usize)) {
        (Some(g), Some(h)) => *g == *h,
        _ => false,
    }
}

/// The level of a datatype: the word that was made for it, and 2^31 where none was.
fn level_word(circuit: &Circuit, levels: &[Level], d: DataId) -> Result<Word, NoMemory>
    requires levels { AreLevels circuit.now levels.now }
    ensures level { IfOk result (λ w. IsLevelWord circuit.now levels.now d w) }
{
    for place in 0..levels.len() {
        if levels[place].of.0 == d.0 {
            return Ok(levels[place].word);
        }
    }
    let digits = pp_bits::constant(circuit, 1 << 31, 32)?;
    Ok(Word::from_lits(&digits))
}

/// Where the number of the name stands: at its sum with the level of the datatype, modulo 2^32.
fn place_of(
    circuit: &mut Circuit,
    levels: &[Level],
    d: DataId,
    name: &Word,
) -> Result<Word, NoMemory>
    requires circuit { IsCircuit circuit.old }
    requires levels { AreLevels circuit.old levels.now }
    requires name { IsName circuit.old name.now }
    requires room { length circuit.old + place_gates ≤ 2 ^ 30 }
    ensures adds { AddsGates circuit.old circuit.new place_gates }
    ensures place { IfOk result (λ p. IsPlace circuit.new levels.now d name.now p) }
{
    let level = level_word(circuit, levels, d)?;
    let sum = pp_bits::add(circuit, name.lits(), level.lits())?;
    Ok(Word::from_lits(&sum))
}

/// Whether the literal `all` is true, and the tree in a field stands before this place, if it is of the group of the
/// datatype `d` and the constructor's literal is true.
fn tree_before(
    circuit: &mut Circuit,
    groups: &[u32],
    levels: &[Level],
    d: DataId,
    place: &Word,
    all: Lit,
    lit: Lit,
    field: &NamedTree,
) -> Result<Lit, NoMemory>
    requires circuit { IsCircuit circuit.old }
    requires levels { AreLevels circuit.old levels.now }
    requires place { IsName circuit.old place.now }
    requires all { IsOf circuit.old all }
    requires lit { IsOf circuit.old lit }
    requires field { IsName circuit.old field.now.name }
    requires room { length circuit.old + 130 ≤ 2 ^ 30 }
    ensures adds { AddsGates circuit.old circuit.new 130 }
    ensures before { IfOk result (λ l. IsBeforeTest circuit.new groups.now levels.now d place.now all lit
        (symbol.Tree field.now) l) }
{
    if is_one_group(groups, d, field.of) {
        let own = place_of(circuit, levels, field.of, &field.name)?;
        let less = pp_bits::less(circuit, own.lits(), place.lits())?;
        let holds = circuit.or(lit.negated(), less)?;
        let both = circuit.and(all, holds)?;
        Ok(both)
    } else {
        Ok(all)
    }
}

/// Whether the literal `all` is true, and the field comes before its tree.
fn field_before(
    circuit: &mut Circuit,
    groups: &[u32],
    levels: &[Level],
    d: DataId,
    place: &Word,
    all: Lit,
    lit: Lit,
    field: &Symbol<NamedTree>,
) -> Result<Lit, NoMemory>
    requires circuit { IsCircuit circuit.old }
    requires levels { AreLevels circuit.old levels.now }
    requires place { IsName circuit.old place.now }
    requires all { IsOf circuit.old all }
    requires lit { IsOf circuit.old lit }
    requires field { IsField circuit.old field.now }
    requires room { length circuit.old + before_gates field.now ≤ 2 ^ 30 }
    ensures adds { AddsGates circuit.old circuit.new (before_gates field.now) }
    ensures before { IfOk result (λ l. IsBeforeTest circuit.new groups.now levels.now d place.now all lit field.now l) }
{
    match field {
        Symbol::Word(_) | Symbol::Bit(_) => Ok(all),
        Symbol::Tree(tree) => {
            let before = tree_before(circuit, groups, levels, d, place, all, lit, tree)?;
            Ok(before)
        }
    }
}

/// Whether the literal `all` is true, and all fields of the constructor come before their tree.
fn fields_before(
    circuit: &mut Circuit,
    groups: &[u32],
    levels: &[Level],
    d: DataId,
    place: &Word,
    all: Lit,
    x: &Alternative,
) -> Result<Lit, NoMemory>
    requires circuit { IsCircuit circuit.old }
    requires levels { AreLevels circuit.old levels.now }
    requires place { IsName circuit.old place.now }
    requires all { IsOf circuit.old all }
    requires lit { IsOf circuit.old x.now.lit }
    requires fields { AreFields circuit.old x.now.fields }
    requires room { length circuit.old + fields_before_gates x.now ≤ 2 ^ 30 }
    ensures adds { AddsGates circuit.old circuit.new (fields_before_gates x.now) }
    ensures before { IfOk result (λ l. AreBeforeTest circuit.new groups.now levels.now d place.now all x.now.lit
        x.now.fields l) }
{
    let fields = x.fields.as_slice();
    let mut before = all;
    for i in 0..fields.len() {
        before = field_before(circuit, groups, levels, d, place, before, x.lit, &fields[i])?;
    }
    Ok(before)
}

/// Whether all fields come before their tree, whose place this is.
fn all_before(
    circuit: &mut Circuit,
    groups: &[u32],
    levels: &[Level],
    d: DataId,
    place: &Word,
    alternatives: &[Alternative],
) -> Result<Lit, NoMemory>
    requires circuit { IsCircuit circuit.old }
    requires levels { AreLevels circuit.old levels.now }
    requires place { IsName circuit.old place.now }
    requires ctors { AreCtors circuit.old alternatives.now }
    requires room { length circuit.old + total fields_before_gates alternatives.now ≤ 2 ^ 30 }
    ensures adds { AddsGates circuit.old circuit.new (total fields_before_gates alternatives.now) }
    ensures before { IfOk result (λ l. AllBeforeTest circuit.new groups.now levels.now d place.now alternatives.now
        l) }
{
    let mut before = circuit.truth();
    for j in 0..alternatives.len() {
        before = fields_before(circuit, groups, levels, d, place, before, &alternatives[j])?;
    }
    Ok(before)
}

/// Whether the tree comes after those of its fields that are of its group of datatypes.
pub fn in_order(
    circuit: &mut Circuit,
    groups: &[u32],
    levels: &[Level],
    y: &Expansion,
) -> Result<Lit, NoMemory>
    requires circuit { IsCircuit circuit.old }
    requires levels { AreLevels circuit.old levels.now }
    requires name { IsName circuit.old y.now.name }
    requires ctors { AreCtors circuit.old y.now.alternatives }
    requires room { length circuit.old + order_gates y.now ≤ 2 ^ 30 }
    ensures adds { AddsGates circuit.old circuit.new (order_gates y.now) }
    ensures order { IfOk result (λ l. IsOrderTest circuit.new groups.now levels.now y.now l) }
{
    let place = place_of(circuit, levels, y.of, &y.name)?;
    let before = all_before(
        circuit,
        groups,
        levels,
        y.of,
        &place,
        y.alternatives.as_slice(),
    )?;
    Ok(before)
}
