//! What answers mean: each function does nothing, and its contract is the law.

ghost use Rattle.pp_answers.specs.Laws.{InvalidMeansFailed, LinesReadBack, MadeReadBack, OneLineEach};
ghost use Rattle.pp_answers.specs.Laws.{OneStatus, OpenMeansSearched, RunsAreRuns, TextReadBack, ValidMeansGood};

/// A task and sources have one status, as far as functions that are verified don't stay open. It does nothing: its
/// contract is the law.
pub fn one_status()
    ensures { OneStatus }
{}

/// Each function that is verified gets one line, and the status is by these lines. It does nothing: its contract is the
/// law.
pub fn one_line_each()
    ensures { OneLineEach }
{}

/// Within limits in their ranges, and for at most 16 sources of at most 262,144 bytes, the line of a function prints
/// one verdict, with one check, one list of arguments, one round and one reason, and no other, and what it says is
/// true. It does nothing: its contract is the law.
pub fn lines_read_back()
    ensures { LinesReadBack }
{}

/// So does the whole text that is printed: it tells where each line ends, and prints one verdict of each function, in
/// order, with one check, one list of arguments, one round and one reason, and how many functions have each verdict,
/// and nothing else, and all this is true. It does nothing: its contract is the law.
pub fn text_read_back()
    ensures { TextReadBack }
{}

/// The text on functions that were made tells how many there are, and how many have each verdict, and nothing else; the
/// verdicts that are counted are true, one of each function, and the status is by the counts. It does nothing: its
/// contract is the law.
pub fn made_read_back()
    ensures { MadeReadBack }
{}

/// A function is called valid only where it is good: every call that meets the precondition evaluates, with some fuel,
/// to a value that meets the postcondition. It does nothing: its contract is the law.
pub fn valid_means_good()
    ensures { ValidMeansGood }
{}

/// A function is called invalid only with arguments whose run fails the named check, with some fuel that is at most the
/// asked rounds. It does nothing: its contract is the law.
pub fn invalid_means_failed()
    ensures { InvalidMeansFailed }
{}

/// A function is called open at a round only where no arguments up to the asked depth fail the named check with calls
/// nested at most so deep. It does nothing: its contract is the law.
pub fn open_means_searched()
    ensures { OpenMeansSearched }
{}

/// The line of a run is that of the evaluator's outcome. It does nothing: its contract is the law.
pub fn runs_are_runs()
    ensures { RunsAreRuns }
{}
