//! Laws of reports, as contracts of functions that do nothing.

ghost use Rattle.pp_induct.specs.Laws.{ClosedAreDecided, FailingAreFound, PlainAreDecided};

/// In a report a check whose function is closed at the asked number of rounds and the asked depth isn't open for want
/// of rounds. It does nothing: its contract is the law.
pub fn closed_are_decided()
    ensures { ClosedAreDecided }
{}

/// In a report no plain descent is open for want of rounds. It does nothing: its contract is the law.
pub fn plain_are_decided()
    ensures { PlainAreDecided }
{}

/// In a report a check that arguments up to the asked depth fail, with the asked number of rounds as fuel, is neither
/// exhausted nor open for want of rounds. It does nothing: its contract is the law.
pub fn failing_are_found()
    ensures { FailingAreFound }
{}
