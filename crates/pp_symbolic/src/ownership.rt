//! The function that a check belongs to.

ghost use Rattle.std.specs.Prelude.{◌<◌, length};
ghost use Rattle.pp_symbolic.specs.Frame.{IsOwner};

use pp_prog::{CheckId, Function, Program};

/// The function that the check belongs to.
pub fn owner(program: &Program, check: CheckId) -> &Function
    requires { check.0 < length program.now.checks }
    ensures { IsOwner program.now check result.now }
{
    let found = program.checks()[check.0 as usize];
    program.function(found.function)
}
