//! Why there is no program.

use std::alloc::AllocError;

/// Why there is no program.
#[derive(Clone, Copy, PartialEq, Eq, Debug)]
pub enum MonoFault {
    /// There are more than 512 instances, functions and types together.
    TooManyInstances,
    /// There was no memory for it.
    Memory,
}

impl From<AllocError> for MonoFault {
    ghost use Rattle.std.specs.Prelude.{◌≡◌};
    ghost use Rattle.pp_mono.specs.declared.fault.MonoFault.TheVariants.{Memory};

    ghost from_gives = { λ _ fault. fault ≡ Memory };

    fn from(_error: AllocError) -> MonoFault {
        MonoFault::Memory
    }
}
