//! A check with its place, as lines name it.

ghost use Rattle.std.specs.Prelude.{◌≡◌, ◌++◌, OnOk, string_bytes};
ghost use Rattle.pp_print.specs.Lines.{check_text, kind_text, place_text};

use pp_prog::{CheckKind, Place};
use pp_text::NoMemory;

/// The word for a kind of check. It takes no memory.
fn kind_word(kind: CheckKind) -> &'static str
    ensures { result.now ≡ kind_text kind }
{
    match kind {
        CheckKind::Precondition => "precondition",
        CheckKind::Postcondition => "postcondition",
        CheckKind::Match => "match",
        CheckKind::Division => "division",
        CheckKind::Measure => "measure",
        CheckKind::Assertion => "assertion",
    }
}

/// Adds `S:L:C`.
pub(crate) fn push_place(out: &mut String, place: Place) -> Result<(), NoMemory>
    ensures { OnOk result (string_bytes out.new ≡ string_bytes out.old ++ place_text place) }
{
    let Place {
        source,
        line,
        column,
    } = place;
    write!(out, "{source}:{line}:{column}")
}

/// Adds `KIND at S:L:C`.
pub(crate) fn push_check(out: &mut String, kind: CheckKind, place: Place) -> Result<(), NoMemory>
    ensures { OnOk result (string_bytes out.new ≡ string_bytes out.old ++ check_text kind place) }
{
    let word = kind_word(kind);
    write!(out, "{word} at ")?;
    push_place(out, place)
}
