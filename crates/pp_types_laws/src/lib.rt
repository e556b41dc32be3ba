//! The typing of whole units, its faults, and what holds of them. Each law is the contract of a function that does
//! nothing.
//!
//! `specs/Typing.antt` says which units have which typing, and `specs/Fault.antt` which rules units break at which
//! place. `specs/Literals.antt`, `specs/Offsets.antt`, `specs/Sizes.antt` and `specs/Sites.antt` say what the laws
//! suppose of units.
#![tactic(auto)]

ghost use Rattle.pp_types_laws.specs.Laws.{FaultsAreInPlace, NodesAreKept, OffsetsAreKept, TypingsAreApart};
ghost use Rattle.pp_types_laws.specs.Laws.{TypingsAreSmall, TypingsAreSorted, TypingsAreUnique, TypingsStand};

/// Units have at most one typing.
pub fn typings_are_unique()
    ensures { TypingsAreUnique }
{}

/// The typing of units whose numbers are Ints is well sorted.
pub fn typings_are_sorted()
    ensures { TypingsAreSorted }
{}

/// Each offset of a typing, with its source, is one of the units.
pub fn offsets_are_kept()
    ensures { OffsetsAreKept }
{}

/// The offset of a fault that stands in units, with its source, is one of the units.
pub fn faults_are_in_place()
    ensures { FaultsAreInPlace }
{}

/// Where the offsets of units are those of texts, the offsets of their typing are.
pub fn typings_stand()
    ensures { TypingsStand }
{}

/// A typing has as many nodes of expression as its units.
pub fn nodes_are_kept()
    ensures { NodesAreKept }
{}

/// The typing of small units is small.
pub fn typings_are_small()
    ensures { TypingsAreSmall }
{}

/// Where the sites of checks of units are apart, those of their typing are.
pub fn typings_are_apart()
    ensures { TypingsAreApart }
{}
