//! Why the automaton stops.

ghost use Rattle.std.specs.Prelude.{◌≡◌};
ghost use Rattle.pp_parse_state.specs.declared.fault.Stop.TheVariants.{Memory};

use crate::NoMemory;
use std::alloc::AllocFailed;

/// Why the automaton stops at a token.
#[derive(Clone, Copy, Debug)]
pub enum Stop<'a> {
    /// There was no memory.
    Memory,
    /// A token can't stand where it does: its offset.
    Syntax(u32),
    /// The language leaves out what stands there: its name, and the offset of that.
    Unsupported(&'a str, u32),
}

impl<'a> From<NoMemory> for Stop<'a> {
    ghost from_gives = { λ _ stop. stop ≡ Memory };

    fn from(_error: NoMemory) -> Stop<'a> {
        Stop::Memory
    }
}

impl<'a, T: Drop> From<AllocFailed<T>> for Stop<'a> {
    ghost from_gives = { λ _ stop. stop ≡ Memory };

    fn from(_error: AllocFailed<T>) -> Stop<'a> {
        Stop::Memory
    }
}
