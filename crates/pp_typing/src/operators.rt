//! The table of operators.

ghost use Rattle.std.specs.Prelude.{◌≡◌, IfOk};
ghost use Rattle.pp_operators.specs.Classes.{is_equality};
ghost use Rattle.pp_rules.specs.Operators.{admits, right_expected};
ghost use Rattle.pp_typed.specs.Equal.{equal};
ghost use Rattle.pp_typed.specs.Operators.{gives, is_number, takes, unary_sort};
ghost use Rattle.pp_typed.specs.declared.sort.GenericSort.TheVariants as generic;

use pp_generic::{Expected, NoMemory, are_same, copy, exact};
use pp_operators::{BinaryOp, OperatorClass, UnaryOp, class_of, is_equality};
use pp_typed::GenericSort;
use std::alloc::Global;

/// The sort of the operand of a prefix operator, which is that of its result.
pub(crate) fn unary_sort(op: UnaryOp) -> GenericSort
    ensures { result ≡ unary_sort op }
{
    match op {
        UnaryOp::Neg | UnaryOp::Flip => GenericSort::Int,
        UnaryOp::Not => GenericSort::Bool,
    }
}

/// Whether it is a sort of numbers.
fn is_number(sort: &GenericSort) -> bool
    ensures { result ≡ is_number sort.now }
{
    matches!(sort, GenericSort::Int)
}

/// Whether it is the sort of truth values.
fn is_bool(sort: &GenericSort) -> bool
    ensures { result ≡ equal generic.Bool sort.now }
{
    matches!(sort, GenericSort::Bool)
}

/// Whether the operator takes operands of these sorts.
pub(crate) fn takes(op: BinaryOp, left: &GenericSort, right: &GenericSort) -> bool
    ensures { result ≡ takes op left.now right.now }
{
    match class_of(op) {
        OperatorClass::Sum
        | OperatorClass::Product
        | OperatorClass::Quotient
        | OperatorClass::Order => is_number(left) && are_same(left, right),
        OperatorClass::Equality => are_same(left, right),
        OperatorClass::Logic => is_bool(left) && is_bool(right),
        OperatorClass::Bitwise => (is_number(left) || is_bool(left)) && are_same(left, right),
        OperatorClass::Shift => is_number(left) && is_number(right),
    }
}

/// Whether the left operand may have this sort: then the operator takes two of it.
pub(crate) fn admits(op: BinaryOp, left: &GenericSort) -> bool
    ensures { result ≡ admits op left.now }
{
    takes(op, left, left)
}

/// The sort of the result, where the left operand has this sort. The only error is want of memory.
pub(crate) fn gives(
    alloc: Global,
    op: BinaryOp,
    left: &GenericSort,
) -> Result<GenericSort, NoMemory>
    ensures { IfOk result (λ s. s ≡ gives op left.now) }
{
    match class_of(op) {
        OperatorClass::Equality | OperatorClass::Order | OperatorClass::Logic => {
            Ok(GenericSort::Bool)
        }
        OperatorClass::Sum
        | OperatorClass::Product
        | OperatorClass::Quotient
        | OperatorClass::Bitwise
        | OperatorClass::Shift => copy(alloc, left),
    }
}

/// What is expected of the right operand, where the left has this sort. The only error is want of memory.
pub(crate) fn right_expected(
    alloc: Global,
    op: BinaryOp,
    sort: &GenericSort,
) -> Result<Expected, NoMemory>
    ensures { IfOk result (λ x. x ≡ right_expected (is_equality op) sort.now) }
{
    if is_equality(op) {
        exact(alloc, sort)
    } else {
        Ok(Expected::Open)
    }
}
