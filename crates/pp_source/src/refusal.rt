//! The lines that refuse a source.

ghost use Rattle.std.specs.Prelude.{◌≡◌};
ghost use Rattle.std.specs.Str.{IsCharBoundary};
ghost use Rattle.pp_print.specs.Faults.{named_fault_text};
ghost use Rattle.pp_print.specs.declared.fault.NamedFault.TheVariants.{Unsupported};
ghost use Rattle.pp_source.specs.Refuses.{fault_line, place_in};
ghost use Rattle.pp_source.specs.Told.{OnLine};
ghost use Rattle.pp_source.specs.declared.refusal.Refusal.TheVariants.{Memory};

use crate::NoMemory;
use pp_print::{NamedFault, SourceFault, named_fault_line, source_fault_line};
use pp_prog::Place;
use pp_text::Text;
use std::alloc::Global;

/// Why sources aren't accepted.
#[derive(Debug, Drop)]
pub enum Refusal {
    /// They are refused, with this line.
    Line(String),
    /// Memory was wanting.
    Memory,
}

impl From<NoMemory> for Refusal {
    ghost from_gives = { λ _ refusal. refusal ≡ Memory };

    fn from(_: NoMemory) -> Self {
        Refusal::Memory
    }
}

/// The place of an offset in the source with this number.
fn place(text: &Text, number: u32, at: u32) -> Place
    requires { IsCharBoundary text.now at }
    ensures { result ≡ place_in number text.now at }
{
    let (line, column) = text.place(at);
    Place {
        source: number,
        line,
        column,
    }
}

/// The refusal for a fault at an offset, where no name is told.
pub(crate) fn faulty(
    alloc: Global,
    fault: SourceFault,
    text: &Text,
    number: u32,
    at: u32,
) -> Refusal
    requires { IsCharBoundary text.now at }
    ensures { OnLine result (λ line. line ≡ fault_line fault number text.now at) }
{
    match source_fault_line(alloc, fault, place(text, number, at)) {
        Ok(line) => Refusal::Line(line),
        Err(_) => Refusal::Memory,
    }
}

/// The refusal for a word that the language leaves out.
pub(crate) fn left_out(alloc: Global, name: &str, text: &Text, number: u32, at: u32) -> Refusal
    requires { IsCharBoundary text.now at }
    ensures { OnLine result (λ line. line ≡ named_fault_text Unsupported name.now (place_in number text.now at)) }
{
    match named_fault_line(
        alloc,
        NamedFault::Unsupported,
        name,
        place(text, number, at),
    ) {
        Ok(line) => Refusal::Line(line),
        Err(_) => Refusal::Memory,
    }
}
