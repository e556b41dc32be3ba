//! Operators with two operands, in classes: those of one class take operands of the same sorts, give a result of the
//! same sort, and may take as many gates. So what holds of sorts and gates is said once a class, and not once an
//! operator.
//!
//! `specs/Classes.antt` has the class of each operator, `specs/Sorts.antt` which sorts a class takes and gives, for the
//! sorts of any layer, and `specs/Gates.antt` how many gates operators on numbers may take.
#![tactic(auto)]

mod class;

pub use class::{
    OperatorClass, class_of, is_division, is_equality, is_order, number_gates, unary_gates,
};
pub use pp_tree::{BinaryOp, UnaryOp};
