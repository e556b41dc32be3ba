//! What calls of named trees add, and what the solver makes of what is asked of them.

ghost use Rattle.std.specs.Prelude.{OnOk};
ghost use Rattle.pp_named_trees.specs.Meaning.{NamedFits};
ghost use Rattle.pp_bounded_samples.specs.Sample.{IsSample};
ghost use Rattle.pp_bounded_cases.specs.Registers.{AreHeld};

use crate::calls::call;
use crate::case::number;
use crate::registers::literal_at;
use anyhow::Result;
use pp_bounded_samples::solving::assignment;
use pp_case_line::CaseLine;
use pp_clause::Lit;
use pp_domain::{Symbol, Symbols};
use pp_gate::Circuit;
use pp_list::Items;
use pp_named_trees::{NamedTree, NamedTrees};
use pp_prog::TypeTable;
use std::alloc::Global;

/// The answer to `named` and the calls of a line: the gates and the looks of each, and whether what is asked holds
/// together with the domain's condition.
pub fn answer(alloc: Global, table: &TypeTable, line: &str) -> Result<String>
    requires { IsSample table.now }
{
    let mut words: Vec<&str> = line.split_whitespace().collect(alloc)?;
    words.reverse();
    let _name = words.pop();
    let mut circuit = Circuit::new(alloc)?;
    let mut trees = NamedTrees::over(&circuit);
    answer_in(alloc, &mut trees, &mut circuit, table, &mut words)
}

/// The answer to the calls, in a domain that has made none.
fn answer_in(
    alloc: Global,
    trees: &mut NamedTrees,
    circuit: &mut Circuit,
    table: &TypeTable,
    words: &mut Vec<&str>,
) -> Result<String>
    requires sample { IsSample table.now }
    requires fits { NamedFits table.now trees.old circuit.old }
{
    let mut answer = CaseLine::new(alloc);
    let mut symbols = Items::new(alloc);
    let mut asked = Vec::new(alloc);
    for _ in 0..words.len() {
        next_call(
            trees,
            circuit,
            table,
            &mut symbols,
            &mut asked,
            words,
            &mut answer,
        )?;
    }
    asked.push(trees.ok)?;
    let found = assignment(alloc, circuit, &asked)?;
    answer.put(if found.is_some() { "sat" } else { "unsat" });
    Ok(answer.end()?)
}

/// Makes the call of the last word, or asks for what it asks, if there is one.
fn next_call(
    trees: &mut NamedTrees,
    circuit: &mut Circuit,
    table: &TypeTable,
    symbols: &mut Symbols<NamedTree>,
    asked: &mut Vec<Lit>,
    words: &mut Vec<&str>,
    answer: &mut CaseLine,
) -> Result<()>
    requires sample { IsSample table.now }
    requires held { AreHeld table.now trees.old circuit.old symbols.old }
    ensures { OnOk result (AreHeld table.now trees.new circuit.new symbols.new) }
{
    match words.pop() {
        None => Ok(()),
        Some("ask") => ask(symbols.as_slice(), asked, words),
        Some(word) => counted(trees, circuit, table, symbols, word, words, answer),
    }
}

/// `ask L B`: asks that the literal L be true where B is 1, and false where it is another number.
fn ask(symbols: &[Symbol<NamedTree>], asked: &mut Vec<Lit>, words: &mut Vec<&str>) -> Result<()> {
    let lit = literal_at(symbols, words)?;
    let truth = number(words)? == 1;
    asked.push(if truth { lit } else { lit.negated() })?;
    Ok(())
}

/// Makes the call, and adds its gates and looks to the answer.
fn counted(
    trees: &mut NamedTrees,
    circuit: &mut Circuit,
    table: &TypeTable,
    symbols: &mut Symbols<NamedTree>,
    word: &str,
    words: &mut Vec<&str>,
    answer: &mut CaseLine,
) -> Result<()>
    requires sample { IsSample table.now }
    requires held { AreHeld table.now trees.old circuit.old symbols.old }
    ensures { OnOk result (AreHeld table.now trees.new circuit.new symbols.new) }
{
    let gates = circuit.gates();
    let looks = trees.expansions.len();
    call(trees, circuit, table, symbols, word, words)?;
    let more = circuit.gates().saturating_sub(gates);
    let seen = trees.expansions.len().saturating_sub(looks);
    answer.put(format_args!("{more} {seen}, "));
    Ok(())
}
