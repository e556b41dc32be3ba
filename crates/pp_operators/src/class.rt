//! The classes of operators.

ghost use Rattle.std.specs.Prelude.{◌≡◌};
ghost use Rattle.pp_operators.specs.Classes as spec;
ghost use Rattle.pp_operators.specs.Gates as gates;

use pp_tree::{BinaryOp, UnaryOp};

/// A class of operators: `+ -`, `*`, `/ %`, `== !=`, `< <= > >=`, `&& ||`, `& | ^`, `<< >> >>>`.
#[derive(Clone, Copy, PartialEq, Eq, Debug)]
pub enum OperatorClass {
    /// Numbers give a number.
    Sum,
    /// Numbers give a number.
    Product,
    /// Numbers give a number, unless the right one is 0.
    Quotient,
    /// Any two values of one sort give a truth value.
    Equality,
    /// Numbers give a truth value.
    Order,
    /// Truth values give one, and the right operand may be skipped.
    Logic,
    /// Numbers give a number, digit by digit, and truth values a truth value.
    Bitwise,
    /// Numbers give a number: the right one says by how many digits.
    Shift,
}

/// The class of an operator.
pub fn class_of(op: BinaryOp) -> OperatorClass
    ensures { result ≡ spec.class_of op }
{
    match op {
        BinaryOp::Add | BinaryOp::Sub => OperatorClass::Sum,
        BinaryOp::Mul => OperatorClass::Product,
        BinaryOp::Div | BinaryOp::Rem => OperatorClass::Quotient,
        BinaryOp::Equal | BinaryOp::Differ => OperatorClass::Equality,
        BinaryOp::Less | BinaryOp::AtMost | BinaryOp::More | BinaryOp::AtLeast => {
            OperatorClass::Order
        }
        BinaryOp::AndAlso | BinaryOp::OrElse => OperatorClass::Logic,
        BinaryOp::And | BinaryOp::Or | BinaryOp::Xor => OperatorClass::Bitwise,
        BinaryOp::Shl | BinaryOp::Shr | BinaryOp::Ushr => OperatorClass::Shift,
    }
}

/// Whether the operator fails where the right operand is 0: `/` and `%`.
pub fn is_division(op: BinaryOp) -> bool
    ensures { result ≡ spec.is_division op }
{
    matches!(class_of(op), OperatorClass::Quotient)
}

/// Whether the operator compares two values of any one sort: `==` and `!=`.
pub fn is_equality(op: BinaryOp) -> bool
    ensures { result ≡ spec.is_equality op }
{
    matches!(class_of(op), OperatorClass::Equality)
}

/// Whether the operator compares two numbers by their order: `<`, `<=`, `>` and `>=`.
pub fn is_order(op: BinaryOp) -> bool
    ensures { result ≡ spec.is_order op }
{
    matches!(class_of(op), OperatorClass::Order)
}

/// How many gates an operator with one operand may take.
pub fn unary_gates(op: UnaryOp) -> u64
    ensures { result ≡ gates.unary_gates op }
{
    match op {
        UnaryOp::Neg => 256,
        UnaryOp::Not => 0,
        UnaryOp::Flip => 64,
    }
}

/// How many gates an operator of this class may take on numbers.
pub fn number_gates(class: OperatorClass) -> u64
    ensures { result ≡ gates.number_gates class }
{
    match class {
        OperatorClass::Sum | OperatorClass::Order => 256,
        OperatorClass::Product => 8192,
        OperatorClass::Quotient => 16384,
        OperatorClass::Equality | OperatorClass::Bitwise => 64,
        OperatorClass::Logic => 0,
        OperatorClass::Shift => 512,
    }
}
