//! The grammar of a source, and the automaton that reads it.
//!
//! `specs/Words.antt` says what single tokens mean, `specs/Types.antt`, `specs/Patterns.antt`, `specs/Exprs.antt`,
//! `specs/Bodies.antt` and `specs/Units.antt` which tokens spell what, with one constructor for each line of the
//! grammar, and `specs/LeftOut.antt` which words the language leaves out. `specs/Automaton.antt` and the files that it
//! names are the automaton of one token. The crate has no code.
#![tactic(auto)]
