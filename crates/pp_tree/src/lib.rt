//! The trees of one source, which lie in an arena.
//!
//! Children are slices and texts of the arena, so a unit can't outlive the arena's reset. Values that lie in an arena
//! hold pointers, so contracts speak of the plain tree that each stands for: `specs/Plain.antt` has the plain trees,
//! `specs/Shown.antt` says which one a value of the arena stands for, and `specs/Height.antt` how high it is. How trees
//! are built stands in `pp_tree_build`.
#![tactic(auto)]

mod class;
mod expr;
pub mod laws;
mod operator;
mod pattern;
mod type_text;
mod unit;

pub use class::{ClassDecl, Param};
pub use expr::{Case, Expr, ExprKind};
pub use operator::{BinaryOp, UnaryOp};
pub use pattern::{Pattern, PatternKind};
pub use std::alloc::AllocError as NoMemory;
pub use type_text::TypeText;
pub use unit::{Decl, DefDecl, Import, Post, Unit};
