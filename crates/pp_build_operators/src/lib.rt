//! Operators on symbolic values: what a program's operators, and the comparison of measures, are over a domain.
//!
//! A call answers a number or a truth value, a symbol of its own. Under each good assignment the symbol stands for what
//! evaluation makes of the values of the operands (`specs/Operated`), and the call adds at most the gates that a step
//! with these operands may take (`specs/Budget`). The contracts of the three public calls are what a loop over steps
//! rests on; how a circuit is chosen may change within the budget.
#![tactic(auto)]

mod binary_operators;
mod descent;
mod unary_operators;

pub use binary_operators::binary;
pub use descent::goes_down;
pub use pp_clause::NoMemory;
pub use unary_operators::unary;
