//! Why the lines on a program of sources can be read back: names of constructors are words and tell the constructors of
//! a datatype apart, case objects have no fields, printed names tell functions and datatypes apart, those of functions
//! begin with no blank, names of parameters are words, and kind and place tell apart the checks of a function. The
//! functions do nothing: their contracts are the laws.
#![tactic(auto)]

ghost use Rattle.pp_legible.specs.Laws.{NamesBeginPlainly, NamesDiffer, ProgramsAreLegible};

/// The program of a typing of units that at most 16 short texts spell is legible. It does nothing: its contract is the
/// law.
pub fn programs_are_legible()
    ensures { ProgramsAreLegible }
{}

/// The names of the functions of such a program begin with no blank, however many and long the texts are. It does
/// nothing: its contract is the law.
pub fn names_begin_plainly()
    ensures { NamesBeginPlainly }
{}

/// No two functions, and no two datatypes, of the program of typed units have one printed name. It does nothing: its
/// contract is the law.
pub fn printed_names_differ()
    ensures { NamesDiffer }
{}
