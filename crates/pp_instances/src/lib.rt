//! The instances of a program's functions and datatypes: which there are, their printed names and their order.
//!
//! `specs/Uses` says what an instance uses, `specs/Closure` which instances a program has and when they are too many,
//! `specs/Names` what their printed names are, and `specs/Order` in which order they stand. How they are found and
//! looked up may change freely.
#![tactic(auto)]

mod closure;
mod fault;
mod member;
mod members;
mod mentions;
mod names;

pub use closure::{MOST_INSTANCES, instances, uses_of};
pub use fault::InstancesFault;
pub use member::{Decl, Instance, Instances, Member};
pub use members::Members;
pub use names::{MOST_NAME, printed};
pub use std::alloc::AllocError as NoMemory;
