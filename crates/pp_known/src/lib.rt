//! What is known of the program of the instances of well-sorted typed units: each instance that is used has its number,
//! and the program is valid and is that of the instances.
//!
//! It has no code: `specs/SettingOf` says what is given, and `proofs/Program` what follows.
#![tactic(auto)]
