//! What the number that a step's value is is made of.

ghost use Rattle.std.specs.Prelude.{◌≡◌, ◌<◌, ℤ, ◌+ℤ◌, ◌*ℤ◌, true, IfSome, length};
ghost use Rattle.pp_prog.specs.declared.sort.Sort.TheVariants as sort;
ghost use Rattle.pp_steps.specs.Meaning.{Values};
ghost use Rattle.pp_closure.specs.Facts.{Holds};
ghost use Rattle.pp_closure.specs.Sums.{AlikeWords, IsPart, amount, product, shows_number, whole};
ghost use Rattle.pp_closure.specs.Valuation.{Valuation};

use crate::facts::Facts;
use crate::product::{MOST_FACTORS, Product};
use crate::terms::{Term, nothing};
use pp_list::at;
use pp_prog::{BinaryOp, UnaryOp};
use pp_steps::Step;

/// What a number is made of, where that is known.
#[derive(Clone, Copy)]
pub(crate) enum Part {
    /// A number.
    Number(i32),
    /// A step so many times, and another one so many times.
    Linear(i32, u32, i32, u32),
    /// The product of two steps.
    Product(u32, u32),
    /// Nothing more is known of the step.
    Step(u32),
}

impl Part {
    /// Whether it shows that the value is a number.
    pub(crate) fn is_number(self) -> bool
        ensures { result ≡ shows_number self }
    {
        match self {
            Part::Number(_) | Part::Linear(..) | Part::Product(_, _) => true,
            Part::Step(_) => false,
        }
    }
}

/// What the step's value is made of, as far as the step itself tells.
pub(crate) fn made_of(all: &[Step], number: u32) -> Part
    ensures part { (v : Valuation all.now) → IsPart v.values result (whole (v.values number)) }
    ensures sort { (v : Valuation all.now) → shows_number result ≡ true → v.sorts number ≡ sort.Int }
    ensures within { shows_number result ≡ true → number < length all.now }
{
    match at(all, number as usize) {
        Some(Step::Int(n)) => Part::Number(*n),
        Some(Step::Unary(UnaryOp::Neg, x)) => Part::Linear(-1, *x, 0, *x),
        Some(Step::Binary(BinaryOp::Add, x, y)) => Part::Linear(1, *x, 1, *y),
        Some(Step::Binary(BinaryOp::Sub, x, y)) => Part::Linear(1, *x, -1, *y),
        Some(Step::Binary(BinaryOp::Mul, x, y)) => Part::Product(*x, *y),
        _ => Part::Step(number),
    }
}

/// What the step's value is made of, as far as its bounds or a step that makes it tell, and of the first steps of their
/// classes. A value that is among its own operands isn't taken apart.
fn part_of(facts: &Facts, all: &[Step], number: u32) -> Part
    ensures { (v : Valuation all.now) → Holds v.values facts.now → IsPart v.values result (whole (v.values number)) }
{
    match facts.known(number).number() {
        Some(n) => Part::Number(n),
        None => part_by_maker(facts, all, number),
    }
}

fn part_by_maker(facts: &Facts, all: &[Step], number: u32) -> Part
    ensures { (v : Valuation all.now) → Holds v.values facts.now → IsPart v.values result (whole (v.values number)) }
{
    match facts.known(number).maker {
        Some(maker) => rooted(facts, number, made_of(all, maker)),
        None => Part::Step(number),
    }
}

/// The part, by the first steps of the classes.
fn rooted(facts: &Facts, number: u32, part: Part) -> Part
    ensures { (ρ : Values) → Holds ρ facts.now → IsPart ρ part (whole (ρ number))
        → IsPart ρ result (whole (ρ number)) }
{
    match part {
        Part::Number(n) => Part::Number(n),
        Part::Linear(a, x, b, y) => {
            if is_among(facts, number, x, y) {
                Part::Step(number)
            } else {
                Part::Linear(a, facts.root(x), b, facts.root(y))
            }
        }
        Part::Product(x, y) => {
            if is_among(facts, number, x, y) {
                Part::Step(number)
            } else {
                Part::Product(facts.root(x), facts.root(y))
            }
        }
        Part::Step(_) => Part::Step(number),
    }
}

/// Whether the step has the value of one of the two.
fn is_among(facts: &Facts, number: u32, x: u32, y: u32) -> bool {
    facts.same(x, number) || facts.same(y, number)
}

/// Two terms that are the term together, where one of its factors is known to be made of others.
pub(crate) fn parts_of(facts: &Facts, all: &[Step], term: &Term) -> Option<(Term, Term)>
    ensures { IfSome result (λ r. (v : Valuation all.now) → Holds v.values facts.now
        → AlikeWords (amount v.values r.0 +ℤ amount v.values r.1) (amount v.values term.now)) }
{
    for place in 0..MOST_FACTORS {
        if let Some((step, rest)) = term.product.split(place) {
            let parts = multiplied(part_of(facts, all, step), term.coefficient, &rest);
            if parts.is_some() {
                return parts;
            }
        }
    }
    None
}

/// The part times the product, so many times.
fn multiplied(part: Part, coefficient: i32, rest: &Product) -> Option<(Term, Term)>
    ensures { IfSome result (λ r. (ρ : Values) (w : ℤ) → IsPart ρ part w
        → AlikeWords (amount ρ r.0 +ℤ amount ρ r.1) (coefficient *ℤ (w *ℤ product ρ rest.now))) }
{
    match part {
        Part::Number(n) => {
            let term = Term {
                coefficient: pp_word::mul(coefficient, n),
                product: *rest,
            };
            Some((term, nothing()))
        }
        Part::Linear(a, x, b, y) => {
            let one = times(pp_word::mul(coefficient, a), x, rest)?;
            let other = times(pp_word::mul(coefficient, b), y, rest)?;
            Some((one, other))
        }
        Part::Product(x, y) => {
            let one = rest.with(x)?;
            let term = times(coefficient, y, &one)?;
            Some((term, nothing()))
        }
        Part::Step(_) => None,
    }
}

/// The step times the product, so many times, where the product has room for it.
fn times(coefficient: i32, step: u32, rest: &Product) -> Option<Term>
    ensures { IfSome result (λ t. (ρ : Values)
        → amount ρ t ≡ coefficient *ℤ (whole (ρ step) *ℤ product ρ rest.now)) }
{
    match rest.with(step) {
        Some(product) => Some(Term {
            coefficient,
            product,
        }),
        None => None,
    }
}
