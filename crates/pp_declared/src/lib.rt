//! What all units declare: roots, constructors and functions, found by their names.
//!
//! `specs/Listed.antt` lists the declarations of units in program order, `specs/WellFormed.antt` says what each keeps
//! by itself, `specs/Declares.antt` which roots, constructors and functions units declare, and `specs/Fault.antt`
//! which rules they may break at which place. `specs/Declare.antt` has what is computed, or the first fault; the laws
//! say that it is the relation's.
#![tactic(auto)]

mod all;
mod counted;
mod ctors;
mod imports;
mod laws;
mod listed;
mod roots;
mod signatures;
mod tables;
mod well_formed;

pub use all::{declare, definitions, root_classes};
pub use laws::{declarations_are_computed, faults_stand};
pub use listed::{ClassAt, DeclAt, DefAt};
pub use std::alloc::AllocError as NoMemory;
