//! Soundness of the automaton: what it answers is spelled.
//!
//! `proofs/Opens.antt` and `proofs/Modes.antt` say what frames and modes tell of the tokens that were read, and
//! `proofs/SoundItems.antt` ends with the theorem `sound`. Lemmas alone: the crate has no code.
#![tactic(auto)]
