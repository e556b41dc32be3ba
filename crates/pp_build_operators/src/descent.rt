//! When a component of a measure goes down.

ghost use Rattle.std.specs.Prelude.{◌≡◌, ℕ, Bool, ◌+◌, ◌^◌, ◌≤◌, true, All, length, pos, int_le, int_lt, ◌&&◌, IfOk};
ghost use Rattle.std.specs.Int.{w32};
ghost use Rattle.pp_gate.specs.Circuit.{IsOf, StandsFor};
ghost use Rattle.pp_gate.specs.Growth.{AddsGates};
ghost use Rattle.pp_wordgate.specs.Meaning.{word_of};
ghost use Rattle.pp_domain.specs.declared.symbol.Symbol.TheVariants as symbol;
ghost use Rattle.pp_domain.specs.Answers.{AreOfOneData};
ghost use Rattle.pp_domain.specs.AnySort.{AreOfOneSort};
ghost use Rattle.pp_domain.specs.Moves.{Moves};
ghost use Rattle.pp_domain.specs.Symbols.{IsWordSymbol};
ghost use Rattle.pp_build_operators.specs.Budget.{goes_down_gates, tree_down_gates};
ghost use Rattle.pp_build_operators.specs.Operated.{IsDescent};

use pp_clause::{Lit, NoMemory};
use pp_domain::{Domain, Symbol};
use pp_gate::{Circuit, Word};
use pp_prog::TypeTable;

/// Whether a component of a measure goes down from the old symbol to the new one, of one sort. Of trees of a domain
/// that isn't exact it is a literal that can stand for whether they do. Words and literals leave the domain as it was.
pub fn goes_down<D: Domain>(
    domain: &mut D,
    circuit: &mut Circuit,
    table: &TypeTable,
    exact: bool,
    new: &Symbol<D::Tree>,
    old: &Symbol<D::Tree>,
) -> Result<Symbol<D::Tree>, NoMemory>
    requires exact { exact ≡ D.sense.exact }
    requires fits { D.sense.Fits table.now domain.old circuit.old }
    requires sorted { AreOfOneSort D.sense table.now domain.old circuit.old new.now old.now }
    requires room { length circuit.old + goes_down_gates D.sense table.now domain.old new.now old.now ≤ 2 ^ 30 }
    ensures moves { Moves D.sense table.now domain.old circuit.old domain.new circuit.new
        (goes_down_gates D.sense table.now domain.old new.now old.now) }
    ensures words { IsWordSymbol new.now → domain.new ≡ domain.old }
    ensures answer { IfOk result (λ r. IsDescent D.sense table.now domain.old circuit.old domain.new circuit.new
        new.now old.now r) }
{
    match (new, old) {
        (Symbol::Word(a), Symbol::Word(b)) => {
            let down = number_goes_down(circuit, *a, *b)?;
            Ok(Symbol::Bit(down))
        }
        (Symbol::Tree(t), Symbol::Tree(u)) => {
            let down = tree_goes_down(domain, circuit, table, exact, t, u)?;
            Ok(Symbol::Bit(down))
        }
        (Symbol::Bit(_), Symbol::Bit(_)) => Ok(Symbol::Bit(circuit.truth().negated())),
        _ => unreachable!(),
    }
}

/// Whether a tree goes down: where it is a proper subtree of the old one. In a domain that isn't exact `below` tells
/// that of some trees, and the literal is true where `below` is or a new input: of all others it can stand for either.
fn tree_goes_down<D: Domain>(
    domain: &mut D,
    circuit: &mut Circuit,
    table: &TypeTable,
    exact: bool,
    new: &D::Tree,
    old: &D::Tree,
) -> Result<Lit, NoMemory>
    requires exact { exact ≡ D.sense.exact }
    requires fits { D.sense.Fits table.now domain.old circuit.old }
    requires trees { AreOfOneData D.sense table.now domain.old new.now old.now }
    requires room { length circuit.old + tree_down_gates D.sense table.now domain.old new.now old.now ≤ 2 ^ 30 }
    ensures moves { Moves D.sense table.now domain.old circuit.old domain.new circuit.new
        (tree_down_gates D.sense table.now domain.old new.now old.now) }
    ensures answer { IfOk result (λ l. IsDescent D.sense table.now domain.old circuit.old domain.new circuit.new
        (symbol.Tree new.now) (symbol.Tree old.now) (symbol.Bit l)) }
{
    let told = domain.below(circuit, table, new, old)?;
    if exact {
        return Ok(told);
    }
    let free = circuit.input()?;
    let down = circuit.or(told, free)?;
    Ok(down)
}

/// Whether a number goes down: the new one isn't negative, and less than the old one.
fn number_goes_down(circuit: &mut Circuit, new: Word, old: Word) -> Result<Lit, NoMemory>
    requires room { length circuit.old + 1024 ≤ 2 ^ 30 }
    requires first { All (IsOf circuit.old) new }
    requires second { All (IsOf circuit.old) old }
    ensures adds { AddsGates circuit.old circuit.new 1024 }
    ensures stands { IfOk result (λ r. StandsFor circuit.new r (λ s.
        int_le (pos 0) (word_of w32 s new) && int_lt (word_of w32 s new) (word_of w32 s old))) }
{
    let zero = pp_wordgate::constant(circuit, 0)?;
    let negative = pp_wordgate::less(circuit, new, zero)?;
    let less = pp_wordgate::less(circuit, new, old)?;
    let down = circuit.and(negative.negated(), less)?;
    Ok(down)
}
