//! The lines on faults of sources.

ghost use Rattle.std.specs.Prelude.{◌≡◌, IfOk, string_bytes};
ghost use Rattle.pp_print.specs.Faults as spec;

use crate::check::push_place;
use pp_prog::Place;
use pp_text::NoMemory;
use std::alloc::Global;

/// What is wrong at a place of a source where no name is told.
#[derive(Clone, Copy, Debug, PartialEq, Eq)]
pub enum SourceFault {
    /// A character that begins no token.
    BadCharacter,
    /// A number that isn't one.
    BadNumber,
    /// A comment that doesn't end.
    OpenComment,
    /// Tokens that spell no unit.
    Syntax,
    /// A tree that is too high.
    TooDeep,
}

/// What is wrong with a name at a place of a source.
#[derive(Clone, Copy, Debug, PartialEq, Eq)]
pub enum NamedFault {
    /// A word that the language leaves out.
    Unsupported,
    /// A name that nothing declares.
    Unknown,
    /// A name that is declared twice, or can't be declared.
    Duplicate,
    /// A type that isn't the wanted one.
    Mismatch,
    /// Too many or too few arguments.
    Arity,
    /// Type arguments that nothing tells.
    CannotInfer,
    /// A type without a finite value.
    Uninhabited,
    /// A condition that isn't Boolean.
    NotABoolean,
    /// A list that is longer than it may be.
    OverLimit,
    /// A recursive function without a measure.
    NoMeasure,
    /// A measure that can't be compared in its group.
    MeasureShape,
    /// A contract that calls into the function's own group.
    ContractCycle,
}

fn source_word(fault: SourceFault) -> &'static str
    ensures { result.now ≡ spec.source_word fault }
{
    match fault {
        SourceFault::BadCharacter => "bad character",
        SourceFault::BadNumber => "bad number",
        SourceFault::OpenComment => "open comment",
        SourceFault::Syntax => "syntax",
        SourceFault::TooDeep => "too deep",
    }
}

fn named_word(fault: NamedFault) -> &'static str
    ensures { result.now ≡ spec.named_word fault }
{
    match fault {
        NamedFault::Unsupported => "unsupported",
        NamedFault::Unknown => "unknown",
        NamedFault::Duplicate => "duplicate",
        NamedFault::Mismatch => "mismatch",
        NamedFault::Arity => "arity",
        NamedFault::CannotInfer => "cannot infer",
        NamedFault::Uninhabited => "uninhabited",
        NamedFault::NotABoolean => "not a boolean",
        NamedFault::OverLimit => "over limit",
        NamedFault::NoMeasure => "no measure",
        NamedFault::MeasureShape => "measure shape",
        NamedFault::ContractCycle => "contract cycle",
    }
}

/// The line `refused: FAULT at S:L:C`. The only error is want of memory.
pub fn source_fault_line(
    alloc: Global,
    fault: SourceFault,
    place: Place,
) -> Result<String, NoMemory>
    ensures { IfOk result (λ s. string_bytes s ≡ spec.source_fault_text fault place) }
{
    let word = source_word(fault);
    let mut out = format!(in alloc; "refused: {word} at ")?;
    push_place(&mut out, place)?;
    out.push_str("\n")?;
    Ok(out)
}

/// The line `refused: FAULT NAME at S:L:C`. The only error is want of memory.
pub fn named_fault_line(
    alloc: Global,
    fault: NamedFault,
    name: &str,
    place: Place,
) -> Result<String, NoMemory>
    ensures { IfOk result (λ s. string_bytes s ≡ spec.named_fault_text fault name.now place) }
{
    let word = named_word(fault);
    let mut out = format!(in alloc; "refused: {word} {name} at ")?;
    push_place(&mut out, place)?;
    out.push_str("\n")?;
    Ok(out)
}

/// The line of sources that have more than 512 instances. It takes no memory.
pub fn too_many_instances_line() -> &'static str
    ensures { result.now ≡ spec.too_many_instances_text }
{
    "refused: too many instances\n"
}
