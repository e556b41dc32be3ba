//! Typed units that are known to be well sorted: what the concrete program is made of.
#![tactic(auto)]

mod well_sorted;

pub use well_sorted::WellSorted;
