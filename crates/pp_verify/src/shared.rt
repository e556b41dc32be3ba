//! What the checks of a function share: what is worked out once for all of them.

ghost use Rattle.std.specs.Prelude.{ℕ};
ghost use Rattle.pp_induct.specs.declared.limits.Limits.{Limits as AnyLimits};
ghost use Rattle.pp_prog.specs.declared.program.Program.{Program as AnyProgram};
ghost use Rattle.pp_verify.specs.Shared.{AreShared};

use crate::sizes::Sizes;
use pp_list::Items;
use pp_prog::FunctionId;
use pp_small::Failures;
use std::alloc::Global;

/// How much cases cost together that are tried for the checks of one function, in estimates with arguments of height 1:
/// those of twenty of the largest rounds, so that a function of many checks takes a minute and not an hour.
const MOST_TOGETHER: u64 = 400_000_000;

/// What the checks of a function share: the estimates of the first rounds, as many as were asked for; and, once a round
/// was left to the fronts, the small arguments that fail checks, and what cases cost. Source: own.
#[derive(Drop)]
pub struct Shared {
    pub(crate) sizes: Sizes,
    // The estimates of the first rounds with arguments of height 1.
    pub(crate) lowest: Sizes,
    pub(crate) failures: Option<Failures>,
    // How much cases may still cost together.
    pub(crate) left: u64,
}

impl Shared {
    /// Nothing was worked out yet.
    pub fn new(alloc: Global) -> Shared
        ensures { (p : AnyProgram) (limits : AnyLimits) (i : ℕ) → AreShared p limits i result }
    {
        Shared {
            sizes: Items::new(alloc),
            lowest: Items::new(alloc),
            failures: None,
            left: MOST_TOGETHER,
        }
    }

    /// Forgets what was worked out for the checks of the one function, where those of another one follow.
    pub(crate) fn turn_to(&mut self, alloc: Global, owner: FunctionId, function: FunctionId)
        ensures { (p : AnyProgram) (limits : AnyLimits) → AreShared p limits owner.0 self.old
            → AreShared p limits function.0 self.new }
    {
        if owner.0 == function.0 {
            return;
        }
        *self = Shared::new(alloc);
    }
}
