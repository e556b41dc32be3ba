//! The rounds of all checks: mode `verify` on a program and its plan.
//!
//! Each check is worked on by itself, in rounds 0, 1 and so on. A round is begun where its estimate isn't above the
//! asked number of gates; it searches for arguments that fail the check (`pp_query`); it ends the check where the
//! check's function is closed; and else it looks for a proof (`pp_query`). A round whose runs are those of the round
//! before, since no call was left to unfold there, isn't searched again: it has the same guess runs too
//! (`repeated_are_alike`). A round whose estimate is so large that it tells nothing is left to the fronts (`fronts`):
//! runs on small arguments (`pp_small`), and then proofs by cases (`pp_query`). Checks that are open where such a round
//! ended them are proved together at last (`prove_cones`), by cases of their guess runs alone (`pp_query`), where all
//! others of their functions' cones are settled. The ends of all checks give the verdicts (`pp_induct`), whose
//! `specs/Reports` says what stands behind a report. `step` is one round of one check, for callers that work on checks
//! in an order of their own; `verify` works on them one after the other.
#![tactic(auto)]

mod cones;
mod fronts;
mod given_up;
mod laws;
mod progress;
mod rounds;
mod shared;
mod sizes;
mod verifying;

pub use cones::prove_cones;
pub use laws::repeated_are_alike;
pub use pp_induct::{Limits, Report};
pub use progress::{Progress, Step};
pub use rounds::step;
pub use shared::Shared;
pub use std::alloc::AllocError as NoMemory;
pub use verifying::verify;
