//! Sums of products of the values of steps, each so many times.

ghost use Rattle.std.specs.Prelude.{◌≡◌, ◌+ℤ◌, ◌*ℤ◌, pos, IfSome, MatchOption, OnOk, slice_get};
ghost use Rattle.pp_steps.specs.Meaning.{Values};
ghost use Rattle.pp_closure.specs.Sums.{AlikeWords, HasProduct, IsZero, amount, product, total};

use crate::NoMemory;
use crate::product::Product;
use pp_list::{Items, at};

/// A product, so many times.
#[derive(Clone, Copy, Drop)]
pub(crate) struct Term {
    pub coefficient: i32,
    pub product: Product,
}

/// Nothing: a number, 0 times.
pub(crate) fn nothing() -> Term
    ensures { (ρ : Values) → amount ρ result ≡ pos 0 }
{
    Term {
        coefficient: 0,
        product: Product::one(),
    }
}

/// Adds the term to the others, of which no two have one product. The only error is want of memory.
pub(crate) fn add(terms: &mut Items<Term>, more: Term) -> Result<(), NoMemory>
    ensures { OnOk result ((ρ : Values) → AlikeWords (total ρ terms.new) (total ρ terms.old +ℤ amount ρ more)) }
{
    let before = take_like(terms, &more.product);
    let coefficient = pp_word::add(before, more.coefficient);
    if coefficient != 0 {
        terms.push(Term {
            coefficient,
            product: more.product,
        })?;
    }
    Ok(())
}

/// Adds all of them. The only error is want of memory.
pub(crate) fn add_all(terms: &mut Items<Term>, more: &[Term]) -> Result<(), NoMemory>
    ensures { OnOk result ((ρ : Values) → AlikeWords (total ρ terms.new) (total ρ terms.old +ℤ total ρ more.now)) }
{
    for term in more {
        add(terms, *term)?;
    }
    Ok(())
}

/// Takes out the term with the product: its coefficient, or 0 where there is none.
fn take_like(terms: &mut Items<Term>, like: &Product) -> i32
    ensures { (ρ : Values) → total ρ terms.old ≡ (result *ℤ product ρ like.now) +ℤ total ρ terms.new }
{
    match place_of(terms.as_slice(), like) {
        Some(place) => terms.remove(place).coefficient,
        None => 0,
    }
}

/// A place where a term with the product is.
fn place_of(terms: &[Term], like: &Product) -> Option<usize>
    ensures { IfSome result (λ place. HasProduct (slice_get terms.now place) like.now) }
{
    for place in 0..terms.len() {
        if let Some(term) = at(terms, place)
            && term.product.is(like)
        {
            return Some(place);
        }
    }
    None
}

/// Takes out a term of which the last step is as late as that of any other.
pub(crate) fn take_last(terms: &mut Items<Term>) -> Option<Term>
    ensures { MatchOption result (terms.new ≡ terms.old) (λ t. (ρ : Values)
        → total ρ terms.old ≡ amount ρ t +ℤ total ρ terms.new) }
{
    let place = place_of_last(terms.as_slice());
    if place < terms.len() {
        Some(terms.remove(place))
    } else {
        None
    }
}

fn place_of_last(terms: &[Term]) -> usize {
    let mut last = 0;
    for place in 0..terms.len() {
        if let (Some(one), Some(other)) = (at(terms, place), at(terms, last))
            && one.product.last() > other.product.last()
        {
            last = place;
        }
    }
    last
}

/// Whether the sum is 0, where it is a number.
pub(crate) fn is_zero(terms: &[Term]) -> Option<bool>
    ensures { IfSome result (λ zero. (ρ : Values) → IsZero zero (total ρ terms.now)) }
{
    match terms.split_first() {
        None => Some(true),
        Some((term, rest)) => {
            if rest.is_empty() && term.product.is_one() && term.coefficient != 0 {
                Some(false)
            } else {
                None
            }
        }
    }
}
