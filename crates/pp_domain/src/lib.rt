//! What symbolic evaluation asks of symbolic values of datatypes: the trait `Domain`.
//!
//! A domain keeps trees over a circuit. Under an assignment, and where it isn't exact under a naming, a tree stands
//! for a value. All that a domain means is one record, `Sense` of `specs/`: which circuits fit it, which trees it
//! keeps, their datatypes and heights, its condition `ok`, the namings that it admits, and what its trees stand for.
//!
//! An assignment is good where it gives each gate its value, makes `ok` true and fits the naming. Each call says what
//! it leaves, also where it ends in want of memory (`Moves`), what its answer means for every good assignment, and
//! that a good assignment before it extends to one after it. So one proof over syntax serves exact domains and those
//! that aren't.
//!
//! `choose`, `equal` and `unknown` do for symbols of any sort what `merge`, `equal` and `unknown` do for trees;
//! `unknown_plain`, `blank_plain` and `masked_plain` make symbols of the sorts that are no datatypes, for domains too,
//! and `short_word` and `masked_short_word` names.
//! `specs/Naming` says what namings are, `specs/Allowance` how many gates each call may add, `specs/Answers` what each
//! call answers, and `specs/Laws` what holds of every domain. Of `proofs/` the layers above cite `Composition` (calls
//! one after another, gates alone), `Symbols` (symbols over calls), `AnySort`, `UnknownSymbols`, `PlainSymbols` and
//! `Numbering`. The trait and the words of `specs/` are what implementations and evaluation rest on; a change there is
//! one of all of them.
#![tactic(auto)]

mod domain;
pub mod laws;
mod operations;
mod plain;
mod short;
mod symbol;

pub use domain::Domain;
pub use operations::{choose, equal, unknown};
pub use plain::{blank_plain, blank_word, masked_plain, masked_word, unknown_plain};
pub use pp_clause::NoMemory;
pub use short::{masked_short_word, short_word};
pub use symbol::{Symbol, Symbols};
