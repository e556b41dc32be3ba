//! Counts of what a visit meets. Each sum is cut at the greatest number.

ghost use Rattle.std.specs.Prelude.{◌≡◌, ℕ, [], ◌∷◌, ◌++◌, IfOk, OnOk, replicate};
ghost use Rattle.pp_estimate.specs.Counted as spec;
ghost use Rattle.pp_estimate.specs.Counted.{counted, plus_each, together};
ghost use Rattle.pp_estimate.specs.Cut.{cut};
ghost use Rattle.pp_estimate.specs.Events as events;
ghost use Rattle.pp_estimate.specs.Visits as visits;
ghost use Rattle.pp_estimate.specs.Visits.{node};

use crate::NoMemory;
use pp_list::Items;
use pp_prog::{DataId, FunctionId, Sort};
use std::alloc::Global;

/// The weight of the nodes that were met; the looks at each datatype; the calls of each function; and the components
/// of datatypes that were compared.
#[derive(Drop)]
pub(crate) struct Counts {
    pub work: u64,
    pub looks: Items<u64>,
    pub calls: Items<u64>,
    pub compares: u64,
}

/// Nothing counted.
pub(crate) fn uncounted(
    alloc: Global,
    datatypes: usize,
    functions: usize,
) -> Result<Counts, NoMemory>
    ensures { IfOk result (λ c. c ≡ spec.uncounted datatypes functions) }
{
    Ok(Counts {
        work: 0,
        looks: zeros(alloc, datatypes)?,
        calls: zeros(alloc, functions)?,
        compares: 0,
    })
}

fn zeros(alloc: Global, n: usize) -> Result<Items<u64>, NoMemory>
    ensures { IfOk result (λ zeros. zeros ≡ replicate n 0) }
{
    let mut zeros = Items::new(alloc);
    for i in 0..n {
        zeros.push(0)?;
    }
    Ok(zeros)
}

/// Adds the numbers at each place.
fn add_each(counts: &mut Items<u64>, more: &[u64])
    ensures { counts.new ≡ plus_each counts.old more.now }
{
    for i in 0..more.len() {
        add_at(counts, i, more[i]);
    }
}

/// Adds a number at the place, if there is one.
fn add_at(counts: &mut Items<u64>, i: usize, more: u64)
    ensures { counts.new ≡ spec.add_at counts.old i more }
{
    if i < counts.len() {
        let sum = counts.as_slice()[i].saturating_add(more);
        counts.set(i, sum);
    }
}

impl Counts {
    /// Counts a weight.
    pub(crate) fn add_work(&mut self, weight: u64)
        ensures { (w : ℕ) → weight ≡ cut w → self.new ≡ counted self.old (events.work w ∷ []) }
    {
        self.work = self.work.saturating_add(weight);
    }

    /// Counts a look at a datatype.
    pub(crate) fn add_look(&mut self, d: DataId)
        ensures { self.new ≡ counted self.old (events.look d ∷ []) }
    {
        add_at(&mut self.looks, d.0 as usize, 1);
    }

    /// Counts a call of a function.
    pub(crate) fn add_call(&mut self, g: FunctionId)
        ensures { self.new ≡ counted self.old (events.called g ∷ []) }
    {
        add_at(&mut self.calls, g.0 as usize, 1);
    }

    /// Counts a comparison of a datatype's component.
    pub(crate) fn add_compare(&mut self)
        ensures { self.new ≡ counted self.old (events.compare ∷ []) }
    {
        self.compares = self.compares.saturating_add(1);
    }

    /// Adds what was counted elsewhere.
    pub(crate) fn add_all(&mut self, more: &Counts)
        ensures { self.new ≡ together self.old more.now }
    {
        self.work = self.work.saturating_add(more.work);
        add_each(&mut self.looks, more.looks.as_slice());
        add_each(&mut self.calls, more.calls.as_slice());
        self.compares = self.compares.saturating_add(more.compares);
    }
}

/// Counts a node with what it weighs besides.
pub(crate) fn add_node(counts: &mut Counts, extra: u64)
    ensures { counts.new ≡ counted counts.old (node extra) }
{
    counts.add_work(extra.saturating_add(64));
}

/// Counts a look, where the sort is a datatype.
pub(crate) fn add_look(counts: &mut Counts, s: Sort)
    ensures { counts.new ≡ counted counts.old (visits.look_at s) }
{
    match s {
        Sort::Int | Sort::Bool => {}
        Sort::Tree(d) => counts.add_look(d),
    }
}

/// Counts the node of a call, and the call.
#[tactic(auto, using(crate::proofs::Merged::counted_append))]
pub(crate) fn add_call_node(counts: &mut Counts, g: FunctionId)
    ensures { counts.new ≡ counted counts.old (node 0 ++ events.called g ∷ []) }
{
    add_node(counts, 0);
    counts.add_call(g);
}
