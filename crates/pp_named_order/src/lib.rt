//! The order in which a domain of named trees keeps the values of datatypes that hold each other: a value comes after
//! its fields.
//!
//! `specs/Order` says what an order is: each datatype has a level, and the number of a value stands at its sum with the
//! level of its datatype. `specs/Ranks` has a naming that has an order: values are numbered by height.
#![tactic(auto)]

pub mod laws;
