//! What is wrong with units that have no typing.
//!
//! A `Fault` is a rule that is broken, with a name and a place. A call that types something answers it, a `Fault` or
//! want of memory: `specs/Part.antt` has the word for what such a call tells.
#![tactic(auto)]

ghost use Rattle.std.specs.Prelude.{◌≡◌};
ghost use Rattle.pp_fault.specs.Part.{Tells, fault};

use pp_text::Name;
pub use std::alloc::AllocError as NoMemory;
use std::alloc::Global;

/// The rule that is broken.
#[derive(Clone, Copy, PartialEq, Eq, Debug)]
pub enum Rule {
    /// A name stands for nothing.
    Unknown,
    /// A name is declared twice, or can't be declared.
    Duplicate,
    /// A type is another one than is wanted.
    Mismatch,
    /// There are more or fewer arguments than declared.
    Arity,
    /// A type argument is neither written nor found.
    CannotInfer,
    /// A type has no finite value.
    Uninhabited,
    /// A condition, a guard, a precondition or a postcondition isn't Boolean.
    NotABoolean,
    /// There are more constructors, parameters, fields or type parameters than allowed.
    OverLimit,
}

/// A rule that is broken, with the name that is written there, the source from 1, and the offset in it.
#[derive(Debug, Drop)]
pub struct Fault {
    pub rule: Rule,
    pub name: Name,
    pub source: u32,
    pub at: u32,
}

/// Why there is no answer.
#[derive(Debug, Drop)]
pub enum Halt {
    Memory,
    Broken(Fault),
}

impl From<NoMemory> for Halt {
    ghost use Rattle.std.specs.Prelude.{◌≡◌};
    ghost use Rattle.pp_fault.specs.declared.Halt.TheVariants.{Memory};

    ghost from_gives = { λ _ e. e ≡ Memory };

    fn from(_e: NoMemory) -> Halt {
        Halt::Memory
    }
}

/// The refusal for a broken rule. Want of memory for the name is answered as such.
pub fn broken<T>(alloc: Global, rule: Rule, name: &str, source: u32, at: u32) -> Result<T, Halt>
    ensures { Tells result (fault rule name.now source at) }
{
    let name = Name::of(alloc, name)?;
    Err(Halt::Broken(Fault {
        rule,
        name,
        source,
        at,
    }))
}
