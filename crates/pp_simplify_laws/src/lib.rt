//! Folded and pruned steps do what the old ones do as far as these are needed, and take no more.
//!
//! Each function does nothing: its contract is a law about the definitions of `pp_steps` and `pp_simplify`, which
//! `specs/Laws` states.
#![tactic(auto)]

ghost use Rattle.std.specs.Prelude.{ℕ};
ghost use Rattle.pp_simplify_laws.specs.Laws.{FoldedFit, FoldedLast, FoldedObey, FoldedRead, FoldedSorted, FoldedTell};
ghost use Rattle.pp_simplify_laws.specs.Laws.{PrunedFit, PrunedKeep, PrunedLast, PrunedObey, PrunedRead, PrunedSorted};
ghost use Rattle.pp_simplify_laws.specs.Laws.{PrunedTell};

/// The first steps and the asked one are kept.
pub fn pruned_keep()
    ensures { PrunedKeep }
{}

/// Values that obey the old steps obey the new ones, where those that aren't kept are constants.
pub fn pruned_obey()
    ensures { PrunedObey }
{}

/// What it means that the value of a step is known.
pub trait Knowledge {
    /// whether the step with the number is known
    ghost known: { ℕ → Type 0 };
}

/// What the new steps tell the old ones tell.
pub fn pruned_tell<K: Knowledge>()
    ensures { PrunedTell K.known }
{}

/// Pruned steps look at earlier ones.
pub fn pruned_read()
    ensures { PrunedRead }
{}

/// They are as many as the old ones.
pub fn pruned_last()
    ensures { PrunedLast }
{}

/// They have sorts where the old ones have.
pub fn pruned_sorted()
    ensures { PrunedSorted }
{}

/// Behind the arguments they have heights, and take at most as many gates and inputs as the old ones.
pub fn pruned_fit()
    ensures { PrunedFit }
{}

/// Values that obey the old steps obey the folded ones, and each step has the value of the one that stands for it.
pub fn folded_obey()
    ensures { FoldedObey }
{}

/// What the folded steps tell the old ones tell, by those that stand for them.
pub fn folded_tell<K: Knowledge>()
    ensures { FoldedTell K.known }
{}

/// Folded steps look at earlier ones.
pub fn folded_read()
    ensures { FoldedRead }
{}

/// They are as many as the old ones, and the step that stands for one of them is no later one.
pub fn folded_last()
    ensures { FoldedLast }
{}

/// They have the sorts of the old ones, and each step has the sort of the one that stands for it.
pub fn folded_sorted()
    ensures { FoldedSorted }
{}

/// Behind the arguments they have heights, and take at most as many gates and inputs as the old ones.
pub fn folded_fit()
    ensures { FoldedFit }
{}
