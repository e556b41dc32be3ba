//! Operators with two operands.

ghost use Rattle.std.specs.Prelude.{◌≡◌, ℕ, Bool, ◌+◌, ◌^◌, ◌≤◌, ◌<◌, true, false, All, length, None, IfOk};
ghost use Rattle.std.specs.Int.{w32};
ghost use Rattle.pp_clause.specs.Literal.{lit_value};
ghost use Rattle.pp_gate.specs.Circuit.{IsOf};
ghost use Rattle.pp_gate.specs.Growth.{AddsGates};
ghost use Rattle.pp_word.specs.Word.{word_div, word_rem};
ghost use Rattle.pp_wordgate.specs.Meaning.{StandsForWord, word_of};
ghost use Rattle.pp_domain.specs.Moves.{Moves};
ghost use Rattle.pp_domain.specs.Symbols.{IsWordSymbol};
ghost use Rattle.pp_eval.specs.Operators.{on_numbers, on_truths};
ghost use Rattle.pp_build_operators.specs.Budget.{operator_gates};
ghost use Rattle.pp_operators.specs.Classes.{class_of, is_equality, is_order};
ghost use Rattle.pp_operators.specs.Gates.{number_gates};
ghost use Rattle.pp_build_operators.specs.Operated.{CanOperate, IsBinary};
ghost use Rattle.pp_build_operators.specs.Plain.{IsNumberOf, IsTruthOf, applied_number};

use pp_clause::{Lit, NoMemory};
use pp_domain::{Domain, Symbol};
use pp_gate::{Circuit, Word};
use pp_operators::{BinaryOp, is_order};
use pp_prog::TypeTable;

/// What the operator makes of the two symbols. A quotient by 0 is 0, and a remainder the dividend. Words and literals
/// leave the domain as it was.
pub fn binary<D: Domain>(
    domain: &mut D,
    circuit: &mut Circuit,
    table: &TypeTable,
    op: BinaryOp,
    left: &Symbol<D::Tree>,
    right: &Symbol<D::Tree>,
) -> Result<Symbol<D::Tree>, NoMemory>
    requires fits { D.sense.Fits table.now domain.old circuit.old }
    requires sorted { CanOperate D.sense op domain.old circuit.old left.now right.now }
    requires room { length circuit.old + operator_gates D.sense table.now op domain.old left.now right.now ≤ 2 ^ 30 }
    ensures moves { Moves D.sense table.now domain.old circuit.old domain.new circuit.new
        (operator_gates D.sense table.now op domain.old left.now right.now) }
    ensures words { IsWordSymbol left.now → domain.new ≡ domain.old }
    ensures answer { IfOk result (λ r. IsBinary D.sense table.now op domain.old circuit.old domain.new circuit.new
        left.now right.now r) }
{
    match op {
        BinaryOp::Equal => {
            let same = pp_domain::equal(domain, circuit, table, left, right)?;
            Ok(Symbol::Bit(same))
        }
        BinaryOp::Differ => {
            let same = pp_domain::equal(domain, circuit, table, left, right)?;
            Ok(Symbol::Bit(same.negated()))
        }
        _ => of_alike(domain, circuit, table, op, left, right),
    }
}

/// An operator on two numbers or two truth values.
fn of_alike<D: Domain>(
    domain: &D,
    circuit: &mut Circuit,
    table: &TypeTable,
    op: BinaryOp,
    left: &Symbol<D::Tree>,
    right: &Symbol<D::Tree>,
) -> Result<Symbol<D::Tree>, NoMemory>
    requires other { is_equality op ≡ false }
    requires fits { D.sense.Fits table.now domain.now circuit.old }
    requires sorted { CanOperate D.sense op domain.now circuit.old left.now right.now }
    requires room { length circuit.old + operator_gates D.sense table.now op domain.now left.now right.now ≤ 2 ^ 30 }
    ensures moves { Moves D.sense table.now domain.now circuit.old domain.now circuit.new
        (operator_gates D.sense table.now op domain.now left.now right.now) }
    ensures answer { IfOk result (λ r. IsBinary D.sense table.now op domain.now circuit.old domain.now circuit.new
        left.now right.now r) }
{
    match (left, right) {
        (Symbol::Word(a), Symbol::Word(b)) => {
            if is_order(op) {
                let bit = order(circuit, op, *a, *b)?;
                Ok(Symbol::Bit(bit))
            } else {
                let word = arithmetic(circuit, op, *a, *b)?;
                Ok(Symbol::Word(word))
            }
        }
        (Symbol::Bit(a), Symbol::Bit(b)) => {
            let bit = of_truths(circuit, op, *a, *b)?;
            Ok(Symbol::Bit(bit))
        }
        _ => unreachable!(),
    }
}

/// An operator that compares two numbers by their order, and true where it is none.
fn order(circuit: &mut Circuit, op: BinaryOp, a: Word, b: Word) -> Result<Lit, NoMemory>
    requires room { length circuit.old + 256 ≤ 2 ^ 30 }
    requires left { All (IsOf circuit.old) a }
    requires right { All (IsOf circuit.old) b }
    ensures adds { AddsGates circuit.old circuit.new 256 }
    ensures stands { IfOk result (λ r. IsTruthOf circuit.new r (λ s.
        on_numbers op None (word_of w32 s a) (word_of w32 s b))) }
{
    match op {
        BinaryOp::Less => {
            let less = pp_wordgate::less(circuit, a, b)?;
            Ok(less)
        }
        BinaryOp::AtMost => {
            let above = pp_wordgate::less(circuit, b, a)?;
            Ok(above.negated())
        }
        BinaryOp::More => {
            let more = pp_wordgate::less(circuit, b, a)?;
            Ok(more)
        }
        BinaryOp::AtLeast => {
            let below = pp_wordgate::less(circuit, a, b)?;
            Ok(below.negated())
        }
        _ => Ok(circuit.truth()),
    }
}

/// An operator that makes a number of two numbers, and 0 where it makes none.
fn arithmetic(circuit: &mut Circuit, op: BinaryOp, a: Word, b: Word) -> Result<Word, NoMemory>
    requires other { is_order op ≡ false }
    requires room { length circuit.old + number_gates (class_of op) ≤ 2 ^ 30 }
    requires left { All (IsOf circuit.old) a }
    requires right { All (IsOf circuit.old) b }
    ensures adds { AddsGates circuit.old circuit.new (number_gates (class_of op)) }
    ensures stands { IfOk result (λ r. IsNumberOf circuit.new r (λ s.
        applied_number op (word_of w32 s a) (word_of w32 s b))) }
{
    match op {
        BinaryOp::Add => Ok(pp_wordgate::add(circuit, a, b)?),
        BinaryOp::Sub => Ok(pp_wordgate::sub(circuit, a, b)?),
        BinaryOp::Mul => Ok(pp_wordscale::mul(circuit, a, b)?),
        BinaryOp::Div => Ok(quotient(circuit, a, b)?),
        BinaryOp::Rem => Ok(remainder(circuit, a, b)?),
        BinaryOp::And => Ok(pp_wordgate::and(circuit, a, b)?),
        BinaryOp::Or => Ok(pp_wordgate::or(circuit, a, b)?),
        BinaryOp::Xor => Ok(pp_wordgate::xor(circuit, a, b)?),
        BinaryOp::Shl => Ok(pp_wordscale::shl(circuit, a, b)?),
        BinaryOp::Shr => Ok(pp_wordscale::shr(circuit, a, b)?),
        BinaryOp::Ushr => Ok(pp_wordscale::ushr(circuit, a, b)?),
        BinaryOp::Equal
        | BinaryOp::Differ
        | BinaryOp::Less
        | BinaryOp::AtMost
        | BinaryOp::More
        | BinaryOp::AtLeast
        | BinaryOp::AndAlso
        | BinaryOp::OrElse => Ok(pp_wordgate::constant(circuit, 0)?),
    }
}

/// The quotient, and 0 where the divisor is 0.
fn quotient(circuit: &mut Circuit, a: Word, b: Word) -> Result<Word, NoMemory>
    requires room { length circuit.old + 16384 ≤ 2 ^ 30 }
    requires left { All (IsOf circuit.old) a }
    requires right { All (IsOf circuit.old) b }
    ensures adds { AddsGates circuit.old circuit.new 16384 }
    ensures stands { IfOk result (λ r. StandsForWord w32 circuit.new r
        (λ s. word_div w32 (word_of w32 s a) (word_of w32 s b))) }
{
    let plain = pp_wordscale::div(circuit, a, b)?;
    let zero = pp_wordgate::constant(circuit, 0)?;
    let none = pp_wordgate::equal(circuit, b, zero)?;
    let whole = pp_wordgate::choose(circuit, none, zero, plain)?;
    Ok(whole)
}

/// The remainder, and the dividend where the divisor is 0.
fn remainder(circuit: &mut Circuit, a: Word, b: Word) -> Result<Word, NoMemory>
    requires room { length circuit.old + 16384 ≤ 2 ^ 30 }
    requires left { All (IsOf circuit.old) a }
    requires right { All (IsOf circuit.old) b }
    ensures adds { AddsGates circuit.old circuit.new 16384 }
    ensures stands { IfOk result (λ r. StandsForWord w32 circuit.new r
        (λ s. word_rem w32 (word_of w32 s a) (word_of w32 s b))) }
{
    let plain = pp_wordscale::rem(circuit, a, b)?;
    let zero = pp_wordgate::constant(circuit, 0)?;
    let none = pp_wordgate::equal(circuit, b, zero)?;
    let whole = pp_wordgate::choose(circuit, none, a, plain)?;
    Ok(whole)
}

/// An operator on two truth values, and true where it is none.
fn of_truths(circuit: &mut Circuit, op: BinaryOp, a: Lit, b: Lit) -> Result<Lit, NoMemory>
    requires room { length circuit.old < 2 ^ 30 }
    requires left { IsOf circuit.old a }
    requires right { IsOf circuit.old b }
    ensures adds { AddsGates circuit.old circuit.new 1 }
    ensures stands { IfOk result (λ r. IsTruthOf circuit.new r (λ s. on_truths op (lit_value s a) (lit_value s b))) }
{
    match op {
        BinaryOp::And => {
            let both = circuit.and(a, b)?;
            Ok(both)
        }
        BinaryOp::Or => {
            let either = circuit.or(a, b)?;
            Ok(either)
        }
        BinaryOp::Xor => {
            let differ = circuit.xor(a, b)?;
            Ok(differ)
        }
        _ => Ok(circuit.truth()),
    }
}
