//! Why a fetch gave no bytes, and why a put took no more.

ghost use Rattle.std.specs.Prelude.{◌≡◌};
ghost use Rattle.pp_seam.specs.declared.faults.FetchFault.TheVariants.{Memory};

use std::alloc::{AllocError, AllocFailed};

/// Why a fetch gave no bytes.
#[derive(Clone, Copy, Debug, PartialEq, Eq)]
pub enum FetchFault {
    /// The path can't be read. It now stands once more at the end of the shelf's failed paths.
    Failed,
    /// The path holds more bytes than the limit.
    TooLong,
    /// There was no memory.
    Memory,
}

impl From<AllocError> for FetchFault {
    ghost from_gives = { λ _ e. e ≡ Memory };

    fn from(_: AllocError) -> Self {
        FetchFault::Memory
    }
}

impl<T: Drop> From<AllocFailed<T>> for FetchFault {
    ghost from_gives = { λ _ e. e ≡ Memory };

    fn from(_: AllocFailed<T>) -> Self {
        FetchFault::Memory
    }
}

/// Why a put took no more.
#[derive(Clone, Copy, Debug, PartialEq, Eq)]
pub enum PutFault {
    /// The sink took a front of the piece at most, and its count of faults rose.
    Failed,
}
