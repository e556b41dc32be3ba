//! What operators, choices and nodes weigh besides, and what the comparison of a measure's component weighs.

ghost use Rattle.std.specs.Prelude.{◌≡◌, ◌+◌, ◌*◌, IfOk, OnOk};
ghost use Rattle.pp_prog.specs.Sizes.{bits, nodes};
ghost use Rattle.pp_estimate.specs.Bounds.{AreRows};
ghost use Rattle.pp_estimate.specs.Cut.{cut};
ghost use Rattle.pp_estimate.specs.Visits as spec;

use crate::NoMemory;
use crate::shape::Shape;
use crate::sizes::{Rows, size_of};
use pp_operators::{BinaryOp, OperatorClass, class_of, number_gates};
use pp_prog::{Sort, TypeTable};
use std::alloc::Global;

/// What the comparison of an Int component weighs.
pub(crate) const COMPARED_INT: u64 = 1024;

/// What a literal in a pattern weighs besides its node.
pub(crate) const LITERAL: u64 = 128;

/// What a call weighs that has no fuel left.
pub(crate) const UNFINISHED: u64 = 32;

fn bits_extra(s: Sort) -> u64
    ensures { result ≡ spec.bits_extra s }
{
    match s {
        Sort::Int => number_gates(OperatorClass::Bitwise),
        Sort::Bool | Sort::Tree(_) => 0,
    }
}

fn equality_extra(
    alloc: Global,
    types: &TypeTable,
    rows: &mut Rows,
    a: Shape,
    b: Shape,
) -> Result<u64, NoMemory>
    requires { AreRows types.now rows.old }
    ensures weight { IfOk result (λ n. n ≡ cut (spec.equality_extra types.now a b)) }
    ensures rows { OnOk result (AreRows types.now rows.new) }
{
    let size = size_of(alloc, types, rows, a.sort, a.height.max(b.height))?;
    Ok(size.bits.saturating_add(32).saturating_mul(4))
}

/// What an operator weighs besides its node.
pub(crate) fn binary_extra(
    alloc: Global,
    types: &TypeTable,
    rows: &mut Rows,
    op: BinaryOp,
    a: Shape,
    b: Shape,
) -> Result<u64, NoMemory>
    requires { AreRows types.now rows.old }
    ensures weight { IfOk result (λ n. n ≡ cut (spec.binary_extra types.now op a b)) }
    ensures rows { OnOk result (AreRows types.now rows.new) }
{
    let class = class_of(op);
    match class {
        OperatorClass::Equality => equality_extra(alloc, types, rows, a, b),
        OperatorClass::Bitwise => Ok(bits_extra(a.sort)),
        OperatorClass::Sum
        | OperatorClass::Product
        | OperatorClass::Quotient
        | OperatorClass::Order
        | OperatorClass::Logic
        | OperatorClass::Shift => Ok(number_gates(class)),
    }
}

/// What a choice between values of this sort weighs, up to a height.
pub(crate) fn choice_extra(
    alloc: Global,
    types: &TypeTable,
    rows: &mut Rows,
    s: Sort,
    height: u64,
) -> Result<u64, NoMemory>
    requires { AreRows types.now rows.old }
    ensures weight { IfOk result (λ n. n ≡ cut (spec.choice_extra types.now s height)) }
    ensures rows { OnOk result (AreRows types.now rows.new) }
{
    let size = size_of(alloc, types, rows, s, height)?;
    Ok(size.bits.saturating_add(32))
}

/// What the comparison of a datatype's component weighs.
pub(crate) fn descent_weight(
    alloc: Global,
    types: &TypeTable,
    rows: &mut Rows,
    new: Shape,
    old: u64,
) -> Result<u64, NoMemory>
    requires { AreRows types.now rows.old }
    ensures weight { IfOk result (λ n. n ≡ cut (64 + 4 * (32 + bits types.now new.height new.sort)
        * (1 + nodes types.now old new.sort))) }
    ensures rows { OnOk result (AreRows types.now rows.new) }
{
    let size = size_of(alloc, types, rows, new.sort, new.height)?;
    let old_size = size_of(alloc, types, rows, new.sort, old)?;
    let equal = size.bits.saturating_add(32).saturating_mul(4);
    let nodes = old_size.nodes.saturating_add(1);
    Ok(equal.saturating_mul(nodes).saturating_add(64))
}
