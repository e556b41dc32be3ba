//! What an outcome says of a check: whether it fails it, and which of its function's checks fails.

ghost use Rattle.std.specs.Prelude.{◌≡◌, ◌↔◌, IfSome, IsTrue};
ghost use Rattle.pp_eval.specs.declared.outcome.Outcome.TheVariants.{Fails};
ghost use Rattle.pp_sound.specs.Sound.{IsCheckOf};

use pp_eval::Outcome;
use pp_list::at;
use pp_prog::{CheckId, FunctionId, Program};

/// Whether the outcome is that the function's own check fails, and this one.
pub(crate) fn fails(outcome: &Outcome, check: CheckId) -> bool
    ensures { IsTrue result ↔ (outcome.now ≡ Fails check) }
{
    match outcome {
        Outcome::Fails(found) => found.0 == check.0,
        Outcome::Done(_) | Outcome::Outside | Outcome::Inner(_, _) | Outcome::Deep => false,
    }
}

/// The check of the function that the outcome of its run says to fail.
pub(crate) fn own_failure(
    program: &Program,
    function: FunctionId,
    outcome: &Outcome,
) -> Option<CheckId>
    ensures fails { IfSome result (λ c. outcome.now ≡ Fails c) }
    ensures own { IfSome result (λ c. IsCheckOf program.now function.0 c.0) }
{
    match outcome {
        Outcome::Fails(check) if belongs(program, function, *check) => Some(*check),
        _ => None,
    }
}

/// Whether the check is one of the function.
fn belongs(program: &Program, function: FunctionId, check: CheckId) -> bool
    ensures { IsTrue result → IsCheckOf program.now function.0 check.0 }
{
    match at(program.checks(), check.0 as usize) {
        Some(found) => found.function.0 == function.0,
        None => false,
    }
}
