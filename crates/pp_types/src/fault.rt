//! Why units have no typing.

ghost use Rattle.std.specs.Prelude.{◌≡◌, Some};
ghost use Rattle.pp_types.specs.Kinds.{broken_rule};
ghost use Rattle.pp_types_laws.specs.Fault as spec;

use pp_fault::{Fault, Rule};
use pp_text::Name;
use thiserror::Error;

/// A rule that is broken, with the name that is written there, its source from 1 and its offset; or want of memory.
#[derive(Debug, Drop, Error)]
pub enum TypeFault {
    /// The name stands for nothing.
    #[error("unknown")]
    Unknown {
        name: Name,
        source: u32,
        offset: u32,
    },
    /// The name is declared twice, or can't be declared.
    #[error("duplicate")]
    Duplicate {
        name: Name,
        source: u32,
        offset: u32,
    },
    /// The type is another one than is wanted.
    #[error("mismatch")]
    Mismatch {
        name: Name,
        source: u32,
        offset: u32,
    },
    /// There are more or fewer arguments than declared.
    #[error("arity")]
    Arity {
        name: Name,
        source: u32,
        offset: u32,
    },
    /// A type argument is neither written nor found.
    #[error("cannot infer")]
    CannotInfer {
        name: Name,
        source: u32,
        offset: u32,
    },
    /// The type has no finite value.
    #[error("uninhabited")]
    Uninhabited {
        name: Name,
        source: u32,
        offset: u32,
    },
    /// A condition, a guard, a precondition or a postcondition isn't Boolean.
    #[error("not a boolean")]
    NotABoolean {
        name: Name,
        source: u32,
        offset: u32,
    },
    /// There are more constructors, parameters, fields or type parameters than allowed.
    #[error("over limit")]
    OverLimit {
        name: Name,
        source: u32,
        offset: u32,
    },
    /// Memory was wanting.
    #[error("out of memory")]
    Memory,
}

/// The broken rule with this name and place.
fn fault_of(rule: Rule, name: Name, source: u32, at: u32) -> Fault
    ensures { result ≡ spec.fault_of rule name source at }
{
    Fault {
        rule,
        name,
        source,
        at,
    }
}

impl TypeFault {
    /// The broken rule, with the name that is written there, its source and its offset; none for want of memory.
    pub fn into_fault(self) -> Option<Fault>
        ensures { result ≡ broken_rule self }
    {
        match self {
            TypeFault::Unknown {
                name,
                source,
                offset,
            } => Some(fault_of(Rule::Unknown, name, source, offset)),
            TypeFault::Duplicate {
                name,
                source,
                offset,
            } => Some(fault_of(Rule::Duplicate, name, source, offset)),
            TypeFault::Mismatch {
                name,
                source,
                offset,
            } => Some(fault_of(Rule::Mismatch, name, source, offset)),
            TypeFault::Arity {
                name,
                source,
                offset,
            } => Some(fault_of(Rule::Arity, name, source, offset)),
            TypeFault::CannotInfer {
                name,
                source,
                offset,
            } => Some(fault_of(Rule::CannotInfer, name, source, offset)),
            TypeFault::Uninhabited {
                name,
                source,
                offset,
            } => Some(fault_of(Rule::Uninhabited, name, source, offset)),
            TypeFault::NotABoolean {
                name,
                source,
                offset,
            } => Some(fault_of(Rule::NotABoolean, name, source, offset)),
            TypeFault::OverLimit {
                name,
                source,
                offset,
            } => Some(fault_of(Rule::OverLimit, name, source, offset)),
            TypeFault::Memory => None,
        }
    }
}

/// The refusal for a broken rule.
pub(crate) fn type_fault(fault: Fault) -> TypeFault
    ensures { broken_rule result ≡ Some fault }
{
    let Fault {
        rule,
        name,
        source,
        at,
    } = fault;
    let offset = at;
    match rule {
        Rule::Unknown => TypeFault::Unknown {
            name,
            source,
            offset,
        },
        Rule::Duplicate => TypeFault::Duplicate {
            name,
            source,
            offset,
        },
        Rule::Mismatch => TypeFault::Mismatch {
            name,
            source,
            offset,
        },
        Rule::Arity => TypeFault::Arity {
            name,
            source,
            offset,
        },
        Rule::CannotInfer => TypeFault::CannotInfer {
            name,
            source,
            offset,
        },
        Rule::Uninhabited => TypeFault::Uninhabited {
            name,
            source,
            offset,
        },
        Rule::NotABoolean => TypeFault::NotABoolean {
            name,
            source,
            offset,
        },
        Rule::OverLimit => TypeFault::OverLimit {
            name,
            source,
            offset,
        },
    }
}
