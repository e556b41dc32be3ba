//! Why tokens are refused.

use pp_text::Name;
use thiserror::Error;

/// Why tokens are refused. Each offset is one at which a token begins, in bytes from 0.
#[derive(Debug, Drop, Error)]
pub enum ParseFault {
    /// A token can't stand where it does. Then the tokens spell no unit.
    #[error("a token can't stand at offset {0}")]
    Syntax(u32),
    /// The tokens spell a unit, and a tree of it that stands here is higher than 64.
    #[error("a tree that is too high stands at offset {0}")]
    TooDeep(u32),
    /// The language leaves out what has this name and stands here. Then the tokens spell no unit.
    #[error("what stands at offset {1} is unsupported")]
    Unsupported(Name, u32),
    /// There was no memory for the unit.
    #[error("out of memory")]
    Memory,
}
