//! Why a text is no log.

use crate::NoMemory;
use thiserror::Error;

/// Why a text was not read.
#[derive(Debug, Drop, Error)]
pub enum LogFault {
    /// The bytes are no log text, and this is the first line that is wrong, from 1.
    #[error("line {0} is wrong")]
    Syntax(u64),
    /// Memory was wanting.
    #[error("out of memory")]
    Memory,
}

impl From<NoMemory> for LogFault {
    ghost use Rattle.std.specs.Prelude.{◌≡◌};
    ghost use Rattle.pp_refute.specs.declared.fault.LogFault.TheVariants.{Memory};

    ghost from_gives = { λ _ e. e ≡ Memory };

    fn from(_e: NoMemory) -> LogFault {
        LogFault::Memory
    }
}
