//! Typing of whole units.
//!
//! Which units have which typing stands in `pp_types_laws/specs/Typing`, and which rules units break at which place in
//! `pp_types_laws/specs/Fault`; `specs/Kinds.antt` says which refusal stands for which of them.
#![tactic(auto)]

mod defs;
mod fault;
mod units;
mod values;

pub use fault::TypeFault;
pub use units::check;

#[cfg(test)]
mod tests;
