//! Operations on symbols of any sort.

ghost use Rattle.std.specs.Prelude.{◌≡◌, ◌+◌, ◌^◌, ◌≤◌, true, length, IfOk, IsTrue};
ghost use Rattle.pp_prog.specs.Cone.{is_word};
ghost use Rattle.pp_prog.specs.Table.{is_sort};
ghost use Rattle.pp_gate.specs.Circuit.{IsOf};
ghost use Rattle.pp_domain.specs.Moves.{Moves, Steady, SameLooks};
ghost use Rattle.pp_domain.specs.Symbols.{IsWordSymbol};
ghost use Rattle.pp_domain.specs.AnySort.{choose_gates, compare_gates, fresh_gates, AreOfOneSort, IsChoice, IsSame};
ghost use Rattle.pp_domain.specs.AnySort.{IsUnknownSymbol};

use crate::domain::Domain;
use crate::plain::unknown_plain;
use crate::symbol::Symbol;
use pp_clause::{Lit, NoMemory};
use pp_gate::Circuit;
use pp_prog::{Sort, TypeTable};

/// The left symbol where the choice is true, and else the right one. They are of one sort. Words and literals leave
/// the domain as it was.
pub fn choose<D: Domain>(
    domain: &mut D,
    circuit: &mut Circuit,
    table: &TypeTable,
    choice: Lit,
    left: &Symbol<D::Tree>,
    right: &Symbol<D::Tree>,
) -> Result<Symbol<D::Tree>, NoMemory>
    requires fits { D.sense.Fits table.now domain.old circuit.old }
    requires choice { IsOf circuit.old choice }
    requires symbols { AreOfOneSort D.sense table.now domain.old circuit.old left.now right.now }
    requires room { length circuit.old + choose_gates D.sense table.now domain.old left.now right.now ≤ 2 ^ 30 }
    ensures moves { Moves D.sense table.now domain.old circuit.old domain.new circuit.new
        (choose_gates D.sense table.now domain.old left.now right.now) }
    ensures steady { D.sense.exact ≡ true → Steady D.sense domain.old circuit.old domain.new circuit.new }
    ensures looks { SameLooks D.sense domain.old domain.new }
    ensures words { IsWordSymbol left.now → domain.new ≡ domain.old }
    ensures answer { IfOk result (λ r. IsChoice D.sense table.now domain.old circuit.old domain.new circuit.new
        choice left.now right.now r) }
{
    match (left, right) {
        (Symbol::Word(a), Symbol::Word(b)) => {
            let word = pp_wordgate::choose(circuit, choice, *a, *b)?;
            Ok(Symbol::Word(word))
        }
        (Symbol::Bit(a), Symbol::Bit(b)) => {
            let bit = circuit.mux(choice, *a, *b)?;
            Ok(Symbol::Bit(bit))
        }
        (Symbol::Tree(t), Symbol::Tree(u)) => {
            let tree = domain.merge(circuit, table, choice, t, u)?;
            Ok(Symbol::Tree(tree))
        }
        _ => unreachable!(),
    }
}

/// Whether the two symbols, of one sort, stand for one value. Words and literals leave the domain as it was.
pub fn equal<D: Domain>(
    domain: &mut D,
    circuit: &mut Circuit,
    table: &TypeTable,
    left: &Symbol<D::Tree>,
    right: &Symbol<D::Tree>,
) -> Result<Lit, NoMemory>
    requires fits { D.sense.Fits table.now domain.old circuit.old }
    requires symbols { AreOfOneSort D.sense table.now domain.old circuit.old left.now right.now }
    requires room { length circuit.old + compare_gates D.sense table.now domain.old left.now right.now ≤ 2 ^ 30 }
    ensures moves { Moves D.sense table.now domain.old circuit.old domain.new circuit.new
        (compare_gates D.sense table.now domain.old left.now right.now) }
    ensures steady { D.sense.exact ≡ true → Steady D.sense domain.old circuit.old domain.new circuit.new }
    ensures looks { SameLooks D.sense domain.old domain.new }
    ensures words { IsWordSymbol left.now → domain.new ≡ domain.old }
    ensures answer { IfOk result (λ l. IsSame D.sense table.now domain.old circuit.old domain.new circuit.new
        left.now right.now l) }
{
    match (left, right) {
        (Symbol::Word(a), Symbol::Word(b)) => {
            let same = pp_wordgate::equal(circuit, *a, *b)?;
            Ok(same)
        }
        (Symbol::Bit(a), Symbol::Bit(b)) => {
            let differ = circuit.xor(*a, *b)?;
            Ok(differ.negated())
        }
        (Symbol::Tree(t), Symbol::Tree(u)) => {
            let same = domain.equal(circuit, table, t, u)?;
            Ok(same)
        }
        _ => unreachable!(),
    }
}

/// A symbol of which nothing is known but its sort and its height: it can stand for each value of the sort up to the
/// height, and where the domain isn't exact for each that has a name. Words and literals leave the domain as it was.
pub fn unknown<D: Domain>(
    domain: &mut D,
    circuit: &mut Circuit,
    table: &TypeTable,
    sort: Sort,
    height: u32,
) -> Result<Symbol<D::Tree>, NoMemory>
    requires fits { D.sense.Fits table.now domain.old circuit.old }
    requires sort { IsTrue (is_sort table.now.datatypes sort) }
    requires room { length circuit.old + fresh_gates D.sense table.now sort height ≤ 2 ^ 30 }
    ensures moves { Moves D.sense table.now domain.old circuit.old domain.new circuit.new
        (fresh_gates D.sense table.now sort height) }
    ensures words { IsTrue (is_word sort) → domain.new ≡ domain.old }
    ensures answer { IfOk result (λ r. IsUnknownSymbol D.sense table.now domain.old circuit.old domain.new
        circuit.new sort height r) }
{
    match sort {
        Sort::Tree(of) => {
            let tree = domain.unknown(circuit, table, of, height)?;
            Ok(Symbol::Tree(tree))
        }
        _ => {
            let plain = unknown_plain(circuit, sort)?;
            Ok(plain)
        }
    }
}
