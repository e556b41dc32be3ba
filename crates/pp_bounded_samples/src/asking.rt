//! What is asked of the inputs, so that symbols stand for given values.
//!
//! A value is spelled by numbers: a number by itself, a truth value by 1 or 0, and a tree by the number of its
//! constructor with its fields behind it.

ghost use Rattle.std.specs.Prelude.{All, OnOk};
ghost use Rattle.pp_bounded_trees.specs.Meaning.{BoundedFits};
ghost use Rattle.pp_bounded_samples.specs.Kept.{CanLook, Goes, IsOfSort};

use crate::NoMemory;
use crate::looks::{ctor_literal, field, field_count, is_ctor_of};
use pp_bounded::{Bounded, BoundedTree};
use pp_clause::Lit;
use pp_domain::Symbol;
use pp_gate::{Circuit, Word};
use pp_prog::{CtorId, TypeTable};

/// Asks that the symbols stand for the values that the numbers spell, the last number first. Where these spell no such
/// values, or one that is higher than this, what is asked is false.
pub fn ask_all(
    domain: &mut Bounded,
    circuit: &mut Circuit,
    table: &TypeTable,
    symbols: &[Symbol<BoundedTree>],
    height: u32,
    numbers: &mut Vec<i32>,
    asked: &mut Vec<Lit>,
) -> Result<(), NoMemory>
    requires fits { BoundedFits table.now domain.old circuit.old }
    requires symbols { All (IsOfSort domain.old circuit.old) symbols.now }
    ensures { OnOk result (Goes table.now domain.old circuit.old domain.new circuit.new) }
{
    for place in 0..symbols.len() {
        ask(
            domain,
            circuit,
            table,
            &symbols[place],
            height,
            numbers,
            asked,
        )?;
    }
    Ok(())
}

/// Asks that the symbol stand for the value that the last numbers spell.
#[cycle(ask)]
fn ask(
    domain: &mut Bounded,
    circuit: &mut Circuit,
    table: &TypeTable,
    symbol: &Symbol<BoundedTree>,
    height: u32,
    numbers: &mut Vec<i32>,
    asked: &mut Vec<Lit>,
) -> Result<(), NoMemory>
    requires fits { BoundedFits table.now domain.old circuit.old }
    requires symbol { IsOfSort domain.old circuit.old symbol.now }
    ensures { OnOk result (Goes table.now domain.old circuit.old domain.new circuit.new) }
{
    let Some(number) = numbers.pop() else {
        return ask_falsehood(circuit, asked);
    };
    match symbol {
        Symbol::Word(word) => ask_number(*word, number, asked),
        Symbol::Bit(lit) => ask_truth(*lit, number, asked),
        Symbol::Tree(tree) => {
            let ctor = CtorId(u32::try_from(number).unwrap_or(u32::MAX));
            if height == 0 || !is_ctor_of(table, ctor, tree.of) {
                return ask_falsehood(circuit, asked);
            }
            ask_tree(
                domain,
                circuit,
                table,
                tree,
                ctor,
                height - 1,
                numbers,
                asked,
            )
        }
    }
}

/// Asks that the tree have the constructor, and the fields that the last numbers spell.
#[cycle(ask)]
fn ask_tree(
    domain: &mut Bounded,
    circuit: &mut Circuit,
    table: &TypeTable,
    tree: &BoundedTree,
    ctor: CtorId,
    height: u32,
    numbers: &mut Vec<i32>,
    asked: &mut Vec<Lit>,
) -> Result<(), NoMemory>
    requires { CanLook table.now domain.old circuit.old tree.now ctor }
    ensures { OnOk result (Goes table.now domain.old circuit.old domain.new circuit.new) }
{
    let has_ctor = ctor_literal(domain, circuit, table, tree, ctor)?;
    asked.push(has_ctor)?;
    for place in 0..field_count(table, ctor) {
        let field = field(domain, circuit, table, tree, ctor, place)?;
        ask(domain, circuit, table, &field, height, numbers, asked)?;
    }
    Ok(())
}

/// Asks what is never true.
fn ask_falsehood(circuit: &Circuit, asked: &mut Vec<Lit>) -> Result<(), NoMemory> {
    asked.push(circuit.truth().negated())?;
    Ok(())
}

/// Asks that the literal be true where the number is 1, and false where it is another.
fn ask_truth(lit: Lit, number: i32, asked: &mut Vec<Lit>) -> Result<(), NoMemory> {
    asked.push(if number == 1 { lit } else { lit.negated() })?;
    Ok(())
}

/// Asks that the word stand for the number.
fn ask_number(word: Word, number: i32, asked: &mut Vec<Lit>) -> Result<(), NoMemory> {
    for place in 0..32u32 {
        ask_truth(word.bit(place), number >> place & 1, asked)?;
    }
    Ok(())
}
