//! Trees are built from their parts, with their heights. Each function here says which plain tree it gives. Its `at` is
//! the offset at which the tree stands, in bytes.
//!
//! What is built lies in the arena and is handed on by reference: a tree is copied only where its parent holds it by
//! value, in a list, a case, a parameter or a declaration, or as the type of a `val`. On `NoMemory` what was made stays
//! in the arena until its reset. How heights are counted may be changed, as long as they tell which trees are higher
//! than 64.
#![tactic(auto)]

mod built;
mod checked;
mod decls;
mod exprs;
mod kept;
mod patterns;
mod placed;
mod roots;
mod rows;
mod types;

pub use built::{Built, Node, TOO_HIGH};
pub use checked::{Checked, Rooted};
pub use decls::{Claim, ClassKind, ClassParts, DefParts, class, def, unit};
pub use exprs::{
    apply, assert_in, binary, bool, case, choice, field, int, matching, name, unary, val_in,
};
pub use kept::keep;
pub use patterns::{any, bool_pattern, ctor_pattern, int_pattern};
pub use pp_tree::NoMemory;
pub use types::{param, type_text};
