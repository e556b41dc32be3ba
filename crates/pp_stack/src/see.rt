//! How a stop is seen.

ghost use Rattle.pp_eval.specs.Part as part;
ghost use Rattle.pp_eval.specs.Part.{Tells};
ghost use Rattle.std.specs.Prelude.{◌≡◌};
ghost use Rattle.pp_stack.specs.See.{seen_halt};

use pp_eval::{Halt, Stop};
use pp_prog::{CheckId, FunctionId};

/// A halt in a frame, as it is seen from the run's own: a failing check of a called function is an inner one.
pub(crate) fn see(called: Option<FunctionId>, halt: Halt) -> Halt
    ensures { result ≡ seen_halt called halt }
{
    match (called, halt) {
        (Some(g), Halt::Stopped(Stop::Fails(c))) => Halt::Stopped(Stop::Inner(g, c)),
        (_, halt) => halt,
    }
}

/// The failure of a site's check.
pub(crate) fn failed<T>(check: Option<CheckId>) -> Result<T, Halt>
    ensures { Tells result (part.failed check) }
{
    match check {
        Some(c) => Err(Halt::Stopped(Stop::Fails(c))),
        None => Err(Halt::Stopped(Stop::Stuck)),
    }
}
