//! The rules of typing for expressions, patterns and functions, against given declarations.
//!
//! `specs/Typing.antt` and `specs/Bodies.antt` say which expressions, patterns and functions have which typing, a rule
//! for each form. `specs/Elab.antt` computes the typing, or the first fault. No code stands here but the type of what a
//! name or an application stands for.
#![tactic(auto)]

mod callee;

pub use callee::{Callee, Target};
