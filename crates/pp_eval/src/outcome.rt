//! How a run ends.

use pp_prog::{CheckId, FunctionId, Value};
use std::alloc::AllocError;

/// How the evaluation of an expression stops before it has a value: a check of the frame's own function fails; a
/// check fails inside a called function; calls are nested deeper than the fuel; an expression, a variable, a field, a
/// function or a site without a check has no meaning for its values, which no run of a valid program meets.
#[derive(Clone, Copy, PartialEq, Eq, Debug)]
pub enum Stop {
    Fails(CheckId),
    Inner(FunctionId, CheckId),
    Deep,
    Stuck,
}

/// Why an evaluation gives no value: want of memory, or the expression stops.
#[derive(Clone, Copy, PartialEq, Eq, Debug)]
pub enum Halt {
    Memory,
    Stopped(Stop),
}

impl From<AllocError> for Halt {
    ghost use Rattle.std.specs.Prelude.{◌≡◌};
    ghost use Rattle.pp_eval.specs.declared.outcome.Halt.TheVariants.{Memory};

    ghost from_gives = { λ _ e. e ≡ Memory };

    fn from(_e: AllocError) -> Halt {
        Halt::Memory
    }
}

impl From<Stop> for Halt {
    ghost use Rattle.std.specs.Prelude.{◌≡◌};
    ghost use Rattle.pp_eval.specs.declared.outcome.Halt.TheVariants.{Stopped};

    ghost from_gives = { λ s halt. halt ≡ Stopped s };

    fn from(stop: Stop) -> Halt {
        Halt::Stopped(stop)
    }
}

/// The outcome of a run: its value, where no check failed; `Outside`, where the precondition is false; a failing check
/// of the function itself; a failing check inside a called function; calls nested deeper than the fuel, which is all
/// that `Deep` means, since no run of a valid program is stuck.
#[derive(Drop)]
pub enum Outcome {
    Done(Value),
    Outside,
    Fails(CheckId),
    Inner(FunctionId, CheckId),
    Deep,
}
