//! What holds of units that texts spell: all that is supposed of units where a program is made of their typing.
//!
//! `specs/Spelled.antt` says which texts spell which units, and `specs/Laws.antt` what follows. Each law is the
//! contract of a function that does nothing.
#![tactic(auto)]

ghost use Rattle.pp_ordinary.specs.Laws.{SpelledAreApart, SpelledAreOrdinary, SpelledAreSmall};
ghost use Rattle.pp_ordinary.specs.Laws.{SpelledStand, TypingsAreFit};

/// Units that texts spell are ordinary: the names of types and functions are plain, and numbers are Ints.
pub fn spelled_are_ordinary()
    ensures { SpelledAreOrdinary }
{}

/// Each offset of units that texts spell is one at which a character of its text begins, or that text's end.
pub fn spelled_stand()
    ensures { SpelledStand }
{}

/// Units that at most 16 short texts spell have fewer than 2^22 nodes of expression together, and no match of theirs
/// has 65,536 cases or more.
pub fn spelled_are_small()
    ensures { SpelledAreSmall }
{}

/// In one function of units that texts spell no two calls, divisions, matches or assertions stand at one offset.
pub fn spelled_are_apart()
    ensures { SpelledAreApart }
{}

/// A typing of units that at most 16 short texts spell is well sorted, stands in them and is small, and its sites are
/// apart.
pub fn typings_are_fit()
    ensures { TypingsAreFit }
{}
