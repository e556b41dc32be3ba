//! Laws that tie equations on natural numbers to the operations of `pp_word`, at each width.
//!
//! A circuit speaks of the bits of a word as one natural number, and its contracts are equations on such numbers.
//! The lemmas of `proofs/` say what these equations mean for the words themselves, the signed readings of the bits. The
//! crate has no code.
#![tactic(auto)]
