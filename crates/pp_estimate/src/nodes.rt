//! The nodes of expressions: what is counted behind the parts of a node, and the shape of its value.

ghost use Rattle.std.specs.Prelude.{◌≡◌, ◌+◌, ◌++◌, slice_get};
ghost use Rattle.pp_prog.specs.Results.{field_result, tree_result};
ghost use Rattle.pp_estimate.specs.Counted.{counted};
ghost use Rattle.pp_estimate.specs.Cut.{cut};
ghost use Rattle.pp_estimate.specs.Visits as spec;
ghost use Rattle.pp_estimate.specs.Visits.{look_at, node, tallest};

use crate::counts::{Counts, add_look, add_node};
use crate::shape::{Shape, part_of, shape_at, tallest_of, tree_sort};
use pp_checks::field_sort;
use pp_prog::{CtorId, Sort, TypeTable};

/// A node that weighs so much more than an empty one, and whose value has this sort and height.
pub(crate) fn weighed(counts: &mut Counts, sort: Sort, height: u64, extra: u64) -> Shape
    ensures shape { result ≡ spec.shape sort height }
    ensures counted { counts.new ≡ counted counts.old (node extra) }
{
    add_node(counts, extra);
    Shape { sort, height }
}

/// A variable.
pub(crate) fn variable(counts: &mut Counts, env: &[Shape], i: u32) -> Shape
    ensures shape { result ≡ spec.shape_at env.now i }
    ensures counted { counts.new ≡ counted counts.old (node 0) }
{
    add_node(counts, 0);
    shape_at(env, i)
}

/// A construction from fields of these shapes, which is a look at its datatype.
#[tactic(auto, using(crate::proofs::Merged::counted_append))]
pub(crate) fn constructed(
    types: &TypeTable,
    counts: &mut Counts,
    c: CtorId,
    fields: &[Shape],
) -> Shape
    ensures shape { result ≡
        spec.shape (tree_result (slice_get types.now.ctors c.0)) (cut (tallest fields.now + 1)) }
    ensures counted { counts.new ≡
        counted counts.old (look_at (tree_result (slice_get types.now.ctors c.0)) ++ node 0) }
{
    let sort = tree_sort(types.ctors.as_slice(), c);
    add_look(counts, sort);
    add_node(counts, 0);
    Shape {
        sort,
        height: tallest_of(fields).saturating_add(1),
    }
}

/// A selection of a field, which is a look at the datatype of the whole.
#[tactic(auto, using(crate::proofs::Merged::counted_append))]
pub(crate) fn selected(types: &TypeTable, counts: &mut Counts, whole: Shape, k: u32) -> Shape
    ensures shape { result ≡ spec.part whole (field_result types.now whole.sort k) }
    ensures counted { counts.new ≡ counted counts.old (look_at whole.sort ++ node 0) }
{
    add_look(counts, whole.sort);
    add_node(counts, 0);
    part_of(whole, field_sort(types, whole.sort, k))
}
