//! How the work on a check ends.

use pp_clause::Spent;
use pp_list::Items;
use pp_prog::Values;

/// Why a check is left open: the rounds are used up; a solver has spent its lemmas, in the search of the next round or
/// in the proof of the last one, with the evidence; the next round is estimated too large.
#[derive(Drop)]
pub enum Why {
    Rounds,
    Lemmas(Spent),
    Size,
}

/// How the work on a check ended: no guess run of this round fails it; all runs were searched in this round; these
/// arguments fail it with this fuel; it is open, after a search up to the round, if there was one.
#[derive(Drop)]
pub enum CheckEnd {
    Proved(u32),
    Exhausted(u32),
    Invalid(Values, u32),
    Open { searched: Option<u32>, why: Why },
}

/// The ends of the checks of a program, in the order of their numbers.
pub type Ends = Items<CheckEnd>;
