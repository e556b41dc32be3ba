//! What the domain makes of two values.

ghost use Rattle.std.specs.Prelude.{◌≡◌, IfOk, OnOk, length};
ghost use Rattle.pp_clause.specs.Assignment.{assigned};
ghost use Rattle.pp_gate.specs.Circuit.{Gives, IsOf};
ghost use Rattle.pp_bounded_trees.specs.Meaning.{BoundedFits};
ghost use Rattle.pp_bounded_samples.specs.Kept.{KeepsPair};
ghost use Rattle.pp_bounded_samples.specs.Sample.{IsSample};
ghost use Rattle.pp_bounded_cases.specs.Pair.{AreKept};

use crate::case::Case;
use crate::found::Found;
use crate::showing::{show_parts, value_of};
use anyhow::{Result, ensure};
use pp_bounded::{Bounded, BoundedTree};
use pp_bounded_samples::asking::ask_all;
use pp_bounded_samples::pair::TreePair;
use pp_bounded_samples::reading::is_true;
use pp_bounded_samples::solving::assignment;
use pp_bounded_samples::table::is_low;
use pp_bounded_samples::trees::{below, equal, fresh, merge, unknown_pair};
use pp_case_line::CaseLine;
use pp_clause::{Assignment, Lit};
use pp_domain::{Domain, Symbol};
use pp_gate::Circuit;
use pp_prog::TypeTable;
use std::alloc::Global;

/// Two trees, and what the domain makes of them.
#[derive(Drop)]
struct Compared {
    pair: TreePair,
    same: Lit,
    below: Lit,
    merged: BoundedTree,
}

/// The answer to the case of a line.
pub fn answer(alloc: Global, table: &TypeTable, line: &str) -> Result<String>
    requires { IsSample table.now }
{
    let mut case = Case::read(alloc, line)?;
    let mut circuit = Circuit::new(alloc)?;
    answer_in(alloc, &mut circuit, table, &mut case)
}

/// The answer to the case, in a circuit that has no gates yet.
fn answer_in(
    alloc: Global,
    circuit: &mut Circuit,
    table: &TypeTable,
    case: &mut Case,
) -> Result<String>
    requires sample { IsSample table.now }
    requires new { length circuit.old ≡ 1 }
{
    let choice = circuit.input()?;
    let mut domain = fresh(circuit, table, choice)?;
    let chosen = if case.left_chosen {
        choice
    } else {
        choice.negated()
    };
    answer_from(alloc, &mut domain, circuit, table, choice, chosen, case)
}

/// The answer to the case, where a choice of the inputs is made so that the literal `chosen` is true.
fn answer_from(
    alloc: Global,
    domain: &mut Bounded,
    circuit: &mut Circuit,
    table: &TypeTable,
    choice: Lit,
    chosen: Lit,
    case: &mut Case,
) -> Result<String>
    requires sample { IsSample table.now }
    requires fits { BoundedFits table.now domain.old circuit.old }
    requires choice { IsOf circuit.old choice }
{
    let compared = compare_unknown(domain, circuit, table, case, choice)?;
    let mut asked = vec![in alloc; domain.ok(), chosen]?;
    ask_both(domain, circuit, table, &compared, case, &mut asked)?;
    match assignment(alloc, circuit, &asked)? {
        None => Ok(String::from_str(alloc, "none")?),
        Some(a) => told(alloc, domain, circuit, table, &a, &compared, case),
    }
}

/// Two trees of the case's datatype and height of which nothing else is known, and what the domain makes of them.
fn compare_unknown(
    domain: &mut Bounded,
    circuit: &mut Circuit,
    table: &TypeTable,
    case: &Case,
    choice: Lit,
) -> Result<Compared>
    requires sample { IsSample table.now }
    requires fits { BoundedFits table.now domain.old circuit.old }
    requires choice { IsOf circuit.old choice }
    ensures { IfOk result (λ t. AreKept table.now domain.new circuit.new t) }
{
    let of = case.of;
    let height = case.height;
    ensure!(is_low(of, height), "no such trees");
    let pair = unknown_pair(domain, circuit, table, of, height)?;
    let compared = compare(domain, circuit, table, choice, pair)?;
    Ok(compared)
}

/// The comparisons of the two trees, and the choice between them.
fn compare(
    domain: &mut Bounded,
    circuit: &mut Circuit,
    table: &TypeTable,
    choice: Lit,
    pair: TreePair,
) -> Result<Compared>
    requires choice { IsOf circuit.old choice }
    requires pair { KeepsPair table.now domain.old circuit.old pair }
    ensures { IfOk result (λ t. AreKept table.now domain.new circuit.new t) }
{
    let same = equal(domain, circuit, table, &pair)?;
    let below = below(domain, circuit, table, &pair)?;
    let merged = merge(domain, circuit, table, choice, &pair)?;
    Ok(Compared {
        pair,
        same,
        below,
        merged,
    })
}

/// Asks that the two trees stand for the values of the case, which may be one higher than the trees.
fn ask_both(
    domain: &mut Bounded,
    circuit: &mut Circuit,
    table: &TypeTable,
    compared: &Compared,
    case: &mut Case,
    asked: &mut Vec<Lit>,
) -> Result<()>
    requires { AreKept table.now domain.old circuit.old compared.now }
    ensures { OnOk result (AreKept table.now domain.new circuit.new compared.now) }
{
    let pair = [
        Symbol::Tree(compared.pair.left),
        Symbol::Tree(compared.pair.right),
    ];
    let height = case.height.saturating_add(1);
    let numbers = &mut case.numbers;
    ask_all(domain, circuit, table, &pair, height, numbers, asked)?;
    ensure!(numbers.is_empty(), "too many numbers");
    Ok(())
}

/// What is read, compared and looked at under the assignment.
fn told(
    alloc: Global,
    domain: &mut Bounded,
    circuit: &mut Circuit,
    table: &TypeTable,
    a: &Assignment,
    compared: &Compared,
    case: &Case,
) -> Result<String>
    requires kept { AreKept table.now domain.old circuit.old compared.now }
    requires gives { Gives (assigned a.now) circuit.old }
{
    let mut line = CaseLine::new(alloc);
    show_values(alloc, domain, circuit, table, a, compared, case, &mut line)?;
    let left = &compared.pair.left;
    line.put(" |");
    show_parts(alloc, domain, circuit, table, a, left, &mut line)?;
    line.put(" |");
    show_parts(
        alloc,
        domain,
        circuit,
        table,
        a,
        &compared.merged,
        &mut line,
    )?;
    Ok(line.end()?)
}

/// Adds what is read and compared under the assignment.
fn show_values(
    alloc: Global,
    domain: &Bounded,
    circuit: &Circuit,
    table: &TypeTable,
    a: &Assignment,
    compared: &Compared,
    case: &Case,
    line: &mut CaseLine,
) -> Result<()>
    requires kept { AreKept table.now domain.now circuit.now compared.now }
    requires gives { Gives (assigned a.now) circuit.now }
{
    let found = Found {
        left: value_of(alloc, domain, circuit, table, a, &compared.pair.left)?,
        right: value_of(alloc, domain, circuit, table, a, &compared.pair.right)?,
        same: is_true(a, compared.same),
        below: is_true(a, compared.below),
        merged: value_of(alloc, domain, circuit, table, a, &compared.merged)?,
    };
    found.check(case)?;
    found.show(line);
    Ok(())
}
