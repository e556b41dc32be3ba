//! What a run reaches is known, even where the dead parts of its steps stand for nothing.
//!
//! The function does nothing: its contract is a law about the definitions of `pp_steps`, which `specs/Laws` states.
#![tactic(auto)]

ghost use Rattle.std.specs.Prelude.{ℕ};
ghost use Rattle.pp_steps_known.specs.Laws.{RunsAreKnown};

/// What it means that the value of a step is known.
pub trait Knowledge {
    /// whether the step with the number is known
    ghost known: { ℕ → Type 0 };
}

/// Where the steps of a run tell what is known, and its arguments are known, so is whether it fails the asked check.
pub fn runs_are_known<K: Knowledge>()
    ensures { RunsAreKnown K.known }
{}
