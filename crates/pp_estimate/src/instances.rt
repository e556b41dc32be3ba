//! The instances of the axioms of named nodes. Each sum and product is cut at the greatest number.

ghost use Rattle.std.specs.Prelude.{◌≡◌, ◌+◌, ◌*◌, List, length, slice_get};
ghost use Rattle.pp_estimate.specs.Counted.{counts_of, number_at};
ghost use Rattle.pp_estimate.specs.Cut.{cut};
ghost use Rattle.pp_estimate.specs.Estimates as spec;
ghost use Rattle.pp_estimate.specs.Estimates.{pairs, sum_below, widths_at};
ghost use Rattle.pp_estimate.specs.Events.{Event};

use crate::counts::Counts;
use crate::sizes::{flat_of, function_widths};
use pp_list::at;
use pp_prog::{DataId, Function, TypeTable};

/// The instances of the axioms of named nodes, for what was counted: each look, each pair of looks, each pair of
/// calls, and each comparison with each look.
pub(crate) fn instances_of(types: &TypeTable, functions: &[Function], counts: &Counts) -> u64
    ensures { (es : List Event) → counts.now ≡ counts_of types.now functions.now es
        → result ≡ cut (spec.instances types.now functions.now es) }
{
    let looks = all_looks(types, counts.looks.as_slice());
    by_looks(types, counts.looks.as_slice())
        .saturating_add(by_pairs(types, counts.looks.as_slice()))
        .saturating_add(by_calls(functions, counts.calls.as_slice()))
        .saturating_add(counts.compares.saturating_mul(128).saturating_mul(looks))
}

/// Each look at a datatype.
fn by_looks(types: &TypeTable, looks: &[u64]) -> u64
    ensures { result ≡ cut (sum_below (length types.now.datatypes)
        (λ d. number_at looks.now d * (256 + 8 * spec.flat_of types.now d))) }
{
    let mut total = 0u64;
    for d in 0..types.datatypes.len() {
        let weight = flat_of(types, DataId(d as u32))
            .saturating_mul(8)
            .saturating_add(256);
        total = total.saturating_add(count_at(looks, d).saturating_mul(weight));
    }
    total
}

/// Each pair of looks at one datatype.
fn by_pairs(types: &TypeTable, looks: &[u64]) -> u64
    ensures { result ≡ cut (sum_below (length types.now.datatypes)
        (λ d. pairs (number_at looks.now d) * (64 + 4 * spec.flat_of types.now d))) }
{
    let mut total = 0u64;
    for d in 0..types.datatypes.len() {
        let weight = flat_of(types, DataId(d as u32))
            .saturating_mul(4)
            .saturating_add(64);
        total = total.saturating_add(pairs_of(count_at(looks, d)).saturating_mul(weight));
    }
    total
}

/// Each pair of calls of one function.
fn by_calls(functions: &[Function], calls: &[u64]) -> u64
    ensures { result ≡ cut (sum_below (length functions.now)
        (λ g. pairs (number_at calls.now g) * (64 + 4 * widths_at (slice_get functions.now g)))) }
{
    let mut total = 0u64;
    for g in 0..functions.len() {
        let weight = widths_of(functions, g).saturating_mul(4).saturating_add(64);
        total = total.saturating_add(pairs_of(count_at(calls, g)).saturating_mul(weight));
    }
    total
}

/// The looks at all datatypes.
fn all_looks(types: &TypeTable, looks: &[u64]) -> u64
    ensures { result ≡ cut (sum_below (length types.now.datatypes) (number_at looks.now)) }
{
    let mut total = 0u64;
    for d in 0..types.datatypes.len() {
        total = total.saturating_add(count_at(looks, d));
    }
    total
}

/// How many pairs there are of so many things.
fn pairs_of(k: u64) -> u64
    ensures { result ≡ cut (pairs k) }
{
    let k = k as u128;
    (k * k.saturating_sub(1) / 2).min(u64::MAX as u128) as u64
}

fn widths_of(functions: &[Function], g: usize) -> u64
    ensures { result ≡ cut (widths_at (slice_get functions.now g)) }
{
    match at(functions, g) {
        None => 0,
        Some(f) => function_widths(f),
    }
}

fn count_at(counts: &[u64], i: usize) -> u64
    ensures { result ≡ number_at counts.now i }
{
    match at(counts, i) {
        None => 0,
        Some(n) => *n,
    }
}
