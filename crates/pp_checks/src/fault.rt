//! Why a program has no plan.

use crate::NoMemory;
use pp_prog::FunctionId;
use thiserror::Error;

/// Why a program has no plan. The function is the first in program order that breaks a rule of measures, and the
/// rule is the first of these that it breaks.
#[derive(Debug, Drop, Error)]
pub enum PlanFault {
    /// The function calls into its own group, contracts included, and has no measure.
    #[error("no measure")]
    NoMeasure(FunctionId),
    /// A component of the function's measure is Boolean, there are more than four, or their sorts aren't those of
    /// the first measure of the group.
    #[error("measure shape")]
    MeasureShape(FunctionId),
    /// The function's precondition or measure list calls into its own group.
    #[error("contract cycle")]
    ContractCycle(FunctionId),
    /// Memory was wanting.
    #[error("out of memory")]
    Memory,
}

impl From<NoMemory> for PlanFault {
    ghost use Rattle.std.specs.Prelude.{◌≡◌};
    ghost use Rattle.pp_checks.specs.declared.fault.PlanFault.TheVariants.{Memory};

    ghost from_gives = { λ _ e. e ≡ Memory };

    fn from(_e: NoMemory) -> PlanFault {
        PlanFault::Memory
    }
}
