//! What follows of the program of typed units: each function does nothing, and its contract is the law. `specs/Laws`
//! states them.
#![tactic(auto)]

ghost use Rattle.pp_mono_laws.specs.Laws.{OverfullHaveMany, ProgramsAreUnique};

/// Typed units have at most one program: its datatypes, its functions with the numbers of their checks, and its checks
/// are told by the units. It does nothing: its contract is the law.
pub fn programs_are_unique()
    ensures { ProgramsAreUnique }
{}

/// There are more instances than a limit exactly where some closure on the way to them has more members than it. It
/// does nothing: its contract is the law.
pub fn overfull_have_many()
    ensures { OverfullHaveMany }
{}
