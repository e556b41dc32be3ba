//! Values that a domain of symbolic trees can follow: where a guess run fails a check, there are some that obey its
//! steps, with a naming that names all of them.
//!
//! `specs/FailingGuess` says which values say that a guess run fails, `specs/NamedGuess` what a naming has to name.
//! There is no code: `proofs/Failing` and `proofs/Named` have the lemmas.
#![tactic(auto)]
