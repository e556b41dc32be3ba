//! Values that obey the steps of a guess run tell the guess run: the laws of its steps.
//!
//! `specs/OpenCalls` says what calls that are left open come to, and `specs/Laws` states the laws. Each function does
//! nothing: its contract is the law.
#![tactic(auto)]

ghost use Rattle.pp_guess_steps.specs.Laws.{GuessesAnswer, GuessesAnswerSorted, GuessesAreSorted};
ghost use Rattle.pp_guess_steps.specs.Laws.{GuessesExist, GuessesRead, GuessesSuppose, GuessesTell};
ghost use Rattle.pp_guess_steps.specs.Laws.{SortedGuessesExist, SupposedAgree, WholeGuessesAnswer};

/// On all arguments of the parameters' sorts some values obey the steps of a guess run, whatever its open calls are
/// answered: by a table, by what is true, or not at all. It does nothing: its contract is the law.
pub fn guesses_exist()
    ensures { GuessesExist }
{}

/// Each step of a guess run looks at earlier steps alone, and what is asked for are steps. It does nothing: its
/// contract is the law.
pub fn guesses_read()
    ensures { GuessesRead }
{}

/// In a program that has a plan, the steps of a guess run have sorts, those of the arguments being the parameters'. It
/// does nothing: its contract is the law.
pub fn guesses_are_sorted()
    ensures { GuessesAreSorted }
{}

/// Where missing fields and answers have their sorts, and each sort has a default, some of those values have the sorts
/// of their steps. It does nothing: its contract is the law.
pub fn sorted_guesses_exist()
    ensures { SortedGuessesExist }
{}

/// In values that obey the steps of a guess run the number of `fails` is true exactly where the run over the answers
/// of its open calls fails the check, for answers with which, completed in any way, that run is neither too deep nor
/// stuck. It does nothing: its contract is the law.
pub fn guesses_tell()
    ensures { GuessesTell }
{}

/// Where a guess run fails the check, values that obey its steps, in which open calls have its answers, make the number
/// of `fails` and all that is supposed true. It does nothing: its contract is the law.
pub fn guesses_suppose()
    ensures { GuessesSuppose }
{}

/// Where all that is supposed is true, each two calls of one function that are reached with equal arguments have equal
/// answers where both have one; and where they wait equally long, both have one or none has. It does nothing: its
/// contract is the law.
pub fn supposed_agree()
    ensures { SupposedAgree }
{}

/// Values that obey all steps but the open calls, for which the check fails and all that is supposed is true, are those
/// of a run that fails the check over the answers of the calls that no round unfolds, where what is evaluated over
/// completed answers is neither too deep nor stuck. It does nothing: its contract is the law.
pub fn whole_guesses_answer()
    ensures { WholeGuessesAnswer }
{}

/// Values that obey all steps but the open calls and have the sorts of their steps, for which the check fails and all
/// that is supposed is true, are those of a run that fails the check over the answers of the calls that no round
/// unfolds. It does nothing: its contract is the law.
pub fn guesses_answer()
    ensures { GuessesAnswer }
{}

/// In the world of a guess run answers to calls on arguments of the parameters' sorts have the results' sorts. It does
/// nothing: its contract is the law.
pub fn guesses_answer_sorted()
    ensures { GuessesAnswerSorted }
{}
