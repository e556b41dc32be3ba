//! Why there are no instances.

use std::alloc::AllocError;

/// Why there are no instances.
#[derive(Clone, Copy, PartialEq, Eq, Debug)]
pub enum InstancesFault {
    /// There are more than 512 instances, functions and types together.
    TooManyInstances,
    /// There was no memory for them.
    Memory,
}

impl From<AllocError> for InstancesFault {
    ghost use Rattle.std.specs.Prelude.{◌≡◌};
    ghost use Rattle.pp_instances.specs.declared.fault.InstancesFault.TheVariants.{Memory};

    ghost from_gives = { λ _ fault. fault ≡ Memory };

    fn from(_error: AllocError) -> InstancesFault {
        InstancesFault::Memory
    }
}
