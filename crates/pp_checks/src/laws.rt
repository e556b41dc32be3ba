//! Laws of plans, as contracts of functions that do nothing.

ghost use Rattle.pp_checks.specs.Laws.{CallLowerRanks, ContractsCallLowerRanks, MeasuresShareSorts, ReadSorts};
ghost use Rattle.pp_checks.specs.Laws.{ShareRanks};

/// Functions of one group have one rank. It does nothing: its contract is the law.
pub fn share_ranks()
    ensures { ShareRanks }
{}

/// A function of another group that a function calls, contracts included, has a lower rank. It does nothing: its
/// contract is the law.
pub fn call_lower_ranks()
    ensures { CallLowerRanks }
{}

/// In a program that has a plan, preconditions and measure lists call functions of lower ranks alone. It does
/// nothing: its contract is the law.
pub fn contracts_call_lower_ranks()
    ensures { ContractsCallLowerRanks }
{}

/// In a program that has a plan, the measure lists of a group have one list of sorts. It does nothing: its contract
/// is the law.
pub fn measures_share_sorts()
    ensures { MeasuresShareSorts }
{}

/// Where an expression has a sort, it is the one that the rules of measures read off its form. It does nothing: its
/// contract is the law.
pub fn read_sorts()
    ensures { ReadSorts }
{}
