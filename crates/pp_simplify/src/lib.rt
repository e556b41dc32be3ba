//! What is left of the steps of a run once nothing is built that is known before the run or isn't asked for.
//!
//! First, from the first step on, what is known of a step's value takes its place (`specs/Folded`): truth values that
//! are known, what an operator makes of known numbers and truth values (`specs/Literals`), whether a value that is made
//! has a constructor, and of a choice whose test is known one operand alone. A step whose value an earlier one has,
//! since that is chosen or is the field of what is made, is named by it (`specs/Names`), and later steps look at that
//! one. Then a constant takes the place of each step on which neither an argument nor the step that is asked for stands
//! (`specs/Pruned`). Numbers stay, so that what is known of the old steps by their numbers is known of the new ones.
#![tactic(auto)]

mod folding;
mod literals;
mod marks;
mod pruning;
mod renaming;

pub use pruning::simplify;
pub use std::alloc::AllocError as NoMemory;
