//! Guess runs: runs whose calls are unfolded up to a round and then answered, for one check.
//!
//! `specs/Answers` says what answers such calls, `specs/Guess` what a guess run is, by the definitions of `pp_eval`
//! with other calls, and `specs/Laws` what follows. Each function does nothing: its contract is the law.
#![tactic(auto)]

ghost use Rattle.pp_guess_runs.specs.Laws.{GuessesKeepSorts, TablesAnswerOnce, TruthAgrees, TruthGrows};

/// A table answers each call that it has, once, and no other. It does nothing: its contract is the law.
pub fn tables_answer_once()
    ensures { TablesAnswerOnce }
{}

/// Where calls are answered by what is true, they have the values of the real ones. It does nothing: its contract is
/// the law.
pub fn truth_agrees()
    ensures { TruthAgrees }
{}

/// With more fuel what is true answers no less. It does nothing: its contract is the law.
pub fn truth_grows()
    ensures { TruthGrows }
{}

/// The values of guess runs and of their calls have the sorts of the results. It does nothing: its contract is the law.
pub fn guesses_keep_sorts()
    ensures { GuessesKeepSorts }
{}
