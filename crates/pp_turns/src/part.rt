//! Where a check stands, and what is kept of it from one of its turns to the next.

ghost use Rattle.std.specs.Prelude.{◌≡◌};
ghost use Rattle.pp_turns.specs.Parts.{has_ended, part_of, progress_of};

use pp_induct::CheckEnd;
use pp_verify::Progress;

/// Where a check stands: at the round that comes next, or it has ended. Source: own.
#[derive(Clone, Copy, PartialEq, Eq, Debug)]
pub enum Part {
    At(u32),
    Ended,
}

/// What is kept of a check: how far the work on it has come, and its end, once a round has ended it. The work on a
/// check that has ended came to the round that ended it.
#[derive(Drop)]
pub(crate) struct Turn {
    pub(crate) progress: Progress,
    pub(crate) end: Option<CheckEnd>,
}

impl Turn {
    /// Where the check stands.
    pub(crate) fn part(&self) -> Part
        ensures { result ≡ part_of self.now }
    {
        match &self.end {
            None => Part::At(self.progress.round),
            Some(_) => Part::Ended,
        }
    }

    /// How far the work on the check has come, where it hasn't ended.
    pub(crate) fn open_progress(&self) -> Option<Progress>
        ensures { result ≡ progress_of self.now }
    {
        match &self.end {
            None => Some(self.progress),
            Some(_) => None,
        }
    }

    /// Whether the check has ended.
    pub(crate) fn has_ended(&self) -> bool
        ensures { result ≡ has_ended self.now }
    {
        self.end.is_some()
    }
}
