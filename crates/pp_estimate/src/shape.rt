//! Shapes of values.

ghost use Rattle.std.specs.Prelude.{◌≡◌, slice_get, take};
ghost use Rattle.pp_prog.specs.Results.{tree_result, unary_result};
ghost use Rattle.pp_prog.specs.Sizes.{height_at};
ghost use Rattle.pp_estimate.specs.Visits as spec;
ghost use Rattle.pp_estimate.specs.Visits.{tallest};

use pp_list::{Items, at};
use pp_prog::{Ctor, CtorId, Sort, UnaryOp};

/// What is known of a value: its sort, and how high it is at most. Numbers and truth values have the height 0.
#[derive(Clone, Copy, PartialEq, Eq, Debug)]
pub struct Shape {
    pub sort: Sort,
    pub height: u64,
}

/// A list of shapes.
pub(crate) type Shapes = Items<Shape>;

/// The shape at this place of the scope.
pub(crate) fn shape_at(env: &[Shape], i: u32) -> Shape
    ensures { result ≡ spec.shape_at env.now i }
{
    match at(env, i as usize) {
        None => Shape {
            sort: Sort::Int,
            height: 0,
        },
        Some(s) => *s,
    }
}

pub(crate) fn height_in(s: Sort, height: u64) -> u64
    ensures { result ≡ height_at height s }
{
    match s {
        Sort::Int | Sort::Bool => 0,
        Sort::Tree(_) => height,
    }
}

/// A part of a value, of this sort.
pub(crate) fn part_of(whole: Shape, s: Sort) -> Shape
    ensures { result ≡ spec.part whole s }
{
    Shape {
        sort: s,
        height: height_in(s, whole.height.saturating_sub(1)),
    }
}

/// The greatest height of these shapes.
pub(crate) fn tallest_of(shapes: &[Shape]) -> u64
    ensures { result ≡ tallest shapes.now }
{
    let mut most = 0u64;
    for s in shapes {
        most = most.max(s.height);
    }
    most
}

pub(crate) fn first_sort(shapes: &[Shape]) -> Sort
    ensures { result ≡ spec.first_sort shapes.now }
{
    match at(shapes, 0) {
        None => Sort::Int,
        Some(s) => s.sort,
    }
}

/// Keeps the first shapes alone.
pub(crate) fn truncate(env: &mut Shapes, n: usize)
    ensures { env.new ≡ take n env.old }
{
    while env.len() > n {
        let _ = env.pop();
    }
}

pub(crate) fn tree_sort(ctors: &[Ctor], c: CtorId) -> Sort
    ensures { result ≡ tree_result (slice_get ctors.now c.0) }
{
    match at(ctors, c.0 as usize) {
        None => Sort::Int,
        Some(c) => Sort::Tree(c.of),
    }
}

pub(crate) fn unary_sort(op: UnaryOp) -> Sort
    ensures { result ≡ unary_result op }
{
    match op {
        UnaryOp::Not => Sort::Bool,
        UnaryOp::Neg | UnaryOp::Flip => Sort::Int,
    }
}
