//! Whether two steps are equal as sums of products of others.

ghost use Rattle.std.specs.Prelude.{◌≡◌, ◌<◌, ◌+ℤ◌, ◌-ℤ◌, ◌*ℤ◌, true, IfOk, OnOk, length};
ghost use Rattle.pp_prog.specs.declared.sort.Sort.TheVariants as sort;
ghost use Rattle.pp_eval.specs.Equality.{equal};
ghost use Rattle.pp_steps.specs.Meaning.{Values};
ghost use Rattle.pp_closure.specs.Facts.{Holds, IsAnswer};
ghost use Rattle.pp_closure.specs.Sums.{AlikeWords, amount, total, whole};
ghost use Rattle.pp_closure.specs.Valuation.{Valuation};

use crate::NoMemory;
use crate::facts::Facts;
use crate::parts::{made_of, parts_of};
use crate::product::Product;
use crate::terms::{Term, add, add_all, is_zero, take_last};
use pp_list::Items;
use pp_steps::Step;
use std::alloc::Global;

/// How often a factor of a sum is replaced by what it is made of, and of how many terms.
const MOST_TURNS: u32 = 96;

const MOST_TERMS: usize = 32;

/// Whether the values of two steps are equal, where they are so as sums, or differ by a constant. One of them has to be
/// known to be a sum or a number. The only error is want of memory.
pub(crate) fn equal_sums(
    alloc: Global,
    facts: &Facts,
    all: &[Step],
    a: u32,
    b: u32,
) -> Result<Option<bool>, NoMemory>
    ensures { IfOk result (λ r. (v : Valuation all.now) → v.sorts a ≡ v.sorts b → a < length all.now
        → b < length all.now → Holds v.values facts.now → IsAnswer r (equal (v.values a) (v.values b))) }
{
    if !are_numbers(facts, all, a, b) {
        return Ok(None);
    }
    let terms = difference(alloc, facts, all, a, b)?;
    Ok(is_zero(terms.as_slice()))
}

/// Whether one of two steps of one sort is known to be a number.
fn are_numbers(facts: &Facts, all: &[Step], a: u32, b: u32) -> bool
    ensures { (v : Valuation all.now) → v.sorts a ≡ v.sorts b → a < length all.now → b < length all.now
        → Holds v.values facts.now → result ≡ true → v.sorts a ≡ sort.Int }
{
    if is_number(facts, all, a) {
        true
    } else {
        is_number(facts, all, b)
    }
}

/// Whether the step is known to be a number, by a step that makes its value.
fn is_number(facts: &Facts, all: &[Step], number: u32) -> bool
    ensures { (v : Valuation all.now) → Holds v.values facts.now → result ≡ true → number < length all.now
        → v.sorts number ≡ sort.Int }
{
    match facts.known(number).maker {
        Some(maker) => made_of(all, maker).is_number(),
        None => false,
    }
}

/// The first value less the second. The only error is want of memory.
fn difference(
    alloc: Global,
    facts: &Facts,
    all: &[Step],
    a: u32,
    b: u32,
) -> Result<Items<Term>, NoMemory>
    ensures { IfOk result (λ r. (v : Valuation all.now) → Holds v.values facts.now
        → AlikeWords (total v.values r) (whole (v.values a) -ℤ whole (v.values b))) }
{
    let mut terms = Items::new(alloc);
    add(&mut terms, once(facts, 1, a))?;
    add(&mut terms, once(facts, -1, b))?;
    let all_terms = expanded(alloc, facts, all, terms)?;
    Ok(all_terms)
}

/// The step so many times.
fn once(facts: &Facts, coefficient: i32, step: u32) -> Term
    ensures { (ρ : Values) → Holds ρ facts.now → amount ρ result ≡ coefficient *ℤ whole (ρ step) }
{
    Term {
        coefficient,
        product: Product::of(facts.root(step)),
    }
}

/// The same sum, where factors that are known to be made of others are replaced, the last ones first, as far as the
/// bounds allow. The only error is want of memory.
fn expanded(
    alloc: Global,
    facts: &Facts,
    all: &[Step],
    terms: Items<Term>,
) -> Result<Items<Term>, NoMemory>
    ensures { IfOk result (λ r. (v : Valuation all.now) → Holds v.values facts.now
        → AlikeWords (total v.values r) (total v.values terms)) }
{
    let mut left = terms;
    let mut done = Items::new(alloc);
    for _ in 0..MOST_TURNS {
        if left.len() > MOST_TERMS || done.len() > MOST_TERMS {
            break;
        }
        match take_last(&mut left) {
            Some(term) => replace(facts, all, term, &mut left, &mut done)?,
            None => break,
        }
    }
    add_all(&mut done, left.as_slice())?;
    Ok(done)
}

/// Adds the term to those that are done, or what it is made of to those that are left. The only error is want of
/// memory.
fn replace(
    facts: &Facts,
    all: &[Step],
    term: Term,
    left: &mut Items<Term>,
    done: &mut Items<Term>,
) -> Result<(), NoMemory>
    ensures { OnOk result ((v : Valuation all.now) → Holds v.values facts.now
        → AlikeWords (total v.values left.new +ℤ total v.values done.new)
        ((total v.values left.old +ℤ total v.values done.old) +ℤ amount v.values term)) }
{
    match parts_of(facts, all, &term) {
        Some((one, other)) => {
            add(left, one)?;
            add(left, other)
        }
        None => add(done, term),
    }
}
