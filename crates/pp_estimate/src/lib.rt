//! The estimate of a round: how large the circuit of a check is at most, before the round is begun.
//!
//! The number is exactly that of `specs/Estimates`: `specs/Events` says what is counted, `specs/Visits` what each form
//! of expression weighs, `specs/Frames` what a call does. How it is counted may change: `specs/Counted`, `specs/Bounds`
//! and `specs/Place` are of the making.
//!
//! - `estimating`: `estimate` and `Estimates`, the rounds together, and one round.
//! - `frames`: calls, and the frames of functions; a called one is counted once.
//! - `visit`: expressions, an arm for each form.
//! - `nodes`: what is counted behind the parts of a node, and the shape of its value.
//! - `binding`: patterns, and the shapes of what they bind.
//! - `comparing`: the components of a measure that are compared at a call.
//! - `weights`: what operators, choices and comparisons weigh besides their node.
//! - `sizes`: how many bits and nodes hold the values of a sort up to a height.
//! - `instances`: what named nodes cost besides, by looks, calls and comparisons.
//! - `counts`: what a visit has met so far.
//! - `memo`: the frames that were counted, and the sizes that were asked for.
//! - `place`: where a visit stands: the program, the fuel, whose frame.
//! - `shape`: the sort of a value, and how high it is at most.
#![tactic(auto)]

mod binding;
mod comparing;
mod counts;
mod estimating;
mod frames;
mod instances;
mod memo;
mod nodes;
mod place;
mod shape;
mod sizes;
mod visit;
mod weights;

pub use estimating::{Estimates, estimate};
pub use shape::Shape;
pub use std::alloc::AllocError as NoMemory;
