//! Why it isn't told whether patterns cover a sort.
use crate::NoMemory;
use thiserror::Error;

/// Why it isn't told whether patterns cover a sort.
#[derive(Debug, Drop, Error)]
pub enum CoverFault {
    /// Memory was wanting.
    #[error("out of memory")]
    Memory,
}

impl From<NoMemory> for CoverFault {
    ghost use Rattle.std.specs.Prelude.{◌≡◌};
    ghost use Rattle.pp_cover.specs.declared.fault.CoverFault.TheVariants.{Memory};

    ghost from_gives = { λ _ e. e ≡ Memory };

    fn from(_e: NoMemory) -> CoverFault {
        CoverFault::Memory
    }
}
