//! The checks of a program between their turns.

ghost use Rattle.std.specs.Prelude.{◌≡◌, ◌↔◌, ◌<◌, IsTrue, List, Some, length, option_map, slice_get};
ghost use Rattle.std.specs.List.{list_all};
ghost use Rattle.pp_prog.specs.declared.id.CheckId.{CheckId as AnyCheck};
ghost use Rattle.pp_prog.specs.declared.program.Program.{Program as AnyProgram};
ghost use Rattle.pp_turns.specs.Parts.{HaveEnded, has_ended, part_of};
ghost use Rattle.pp_turns.specs.Turns.{AreTurned, AreTurns, IsNamedEnough};

use crate::part::{Part, Turn};
use pp_induct::Limits;
use pp_list::Items;
use pp_prog::CheckId;
use pp_verify::Shared;

/// The checks of a program, each at the round that it has come to or with its end. Its memory grows with the number of
/// checks, since each keeps what it has. Source: own.
#[derive(Drop)]
pub struct Turns {
    // What is kept of each check, by its number.
    pub(crate) checks: Items<Turn>,
    // What the checks of each function share, by the function's number.
    pub(crate) shared: Vec<Shared>,
    pub(crate) limits: Limits,
}

impl Turns {
    /// Where the check stands. It takes no memory.
    pub fn part(&self, check: CheckId) -> Part
        requires { check.0 < length self.now.checks }
        ensures { option_map part_of (slice_get self.now.checks check.0) ≡ Some result }
    {
        let checks = self.checks.as_slice();
        let place = check.0 as usize;
        checks[place].part()
    }

    /// Whether each check has ended, as all have after a list of turns that names each once more than the number of the
    /// last round. It takes no memory.
    pub fn ended(&self) -> bool
        ensures each { IsTrue result ↔ HaveEnded self.now.checks }
        ensures enough { (p : AnyProgram) (names : List AnyCheck) → AreTurns p self.now
            → AreTurned names self.now.checks → IsNamedEnough p self.now.limits names → IsTrue result }
    {
        have_ended(self.checks.as_slice())
    }
}

fn have_ended(checks: &[Turn]) -> bool
    ensures { result ≡ list_all has_ended checks.now }
{
    for check in checks {
        if !check.has_ended() {
            return false;
        }
    }
    true
}
