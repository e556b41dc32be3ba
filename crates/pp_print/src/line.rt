//! The lines on the verdicts.

ghost use Rattle.std.specs.Prelude.{◌≡◌, ◌++◌, IfOk, OnOk, string_bytes};
ghost use Rattle.pp_print.specs.Lines.{depends_text, invalid_text, open_text, summary_text, valid_text};
ghost use Rattle.pp_print.specs.Lines.{reason_text, round_text};

use crate::check::push_check;
use crate::value::push_arguments;
use pp_prog::{CheckKind, Ctor, Param, Place, Value};
use pp_text::NoMemory;
use std::alloc::Global;

/// The line `NAME: valid, K checks` of a valid function, with the number of its own checks. The word is `checks` also
/// after 1. The only error is want of memory.
pub fn valid_line(alloc: Global, name: &str, checks: u32) -> Result<String, NoMemory>
    ensures { IfOk result (λ s. string_bytes s ≡ valid_text name.now checks) }
{
    format!(in alloc; "{name}: valid, {checks} checks\n")
}

/// The line `NAME: depends on OTHER, K checks` of a function whose own checks are done, where those of another that it
/// calls aren't. The only error is want of memory.
pub fn depends_line(alloc: Global, name: &str, other: &str, checks: u32) -> Result<String, NoMemory>
    ensures { IfOk result (λ s. string_bytes s ≡ depends_text name.now other.now checks) }
{
    format!(in alloc; "{name}: depends on {other}, {checks} checks\n")
}

/// The line `NAME: invalid, KIND at S:L:C, x = V, y = W` of a function that fails the check of this kind at this place,
/// run on these values, one for each parameter in order. Without a parameter it ends after the place. Of two lists of
/// different lengths the longer is cut. The only error is want of memory.
pub fn invalid_line(
    alloc: Global,
    ctors: &[Ctor],
    name: &str,
    kind: CheckKind,
    place: Place,
    params: &[Param],
    values: &[Value],
) -> Result<String, NoMemory>
    ensures { IfOk result (λ s. string_bytes s ≡ invalid_text ctors.now name.now kind place params.now values.now) }
{
    let mut out = format!(in alloc; "{name}: invalid, ")?;
    push_check(&mut out, kind, place)?;
    push_arguments(alloc, &mut out, ctors, params, values)?;
    out.push_str("\n")?;
    Ok(out)
}

/// Why a check is left open: the rounds are used up; the lemmas of a query are spent; the next round is estimated too
/// large.
#[derive(Clone, Copy, Debug, PartialEq, Eq)]
pub enum Reason {
    Rounds,
    Lemmas,
    Size,
}

/// The word for a reason. It takes no memory.
fn reason_word(reason: Reason) -> &'static str
    ensures { result.now ≡ reason_text reason }
{
    match reason {
        Reason::Rounds => "rounds",
        Reason::Lemmas => "lemmas",
        Reason::Size => "size",
    }
}

/// Adds `at round N`, or `before round 0`.
fn push_round(out: &mut String, searched: Option<u32>) -> Result<(), NoMemory>
    ensures { OnOk result (string_bytes out.new ≡ string_bytes out.old ++ round_text searched) }
{
    match searched {
        None => out.push_str("before round 0"),
        Some(round) => write!(out, "at round {round}"),
    }
}

/// The line `NAME: open at round N, KIND at S:L:C, WHY` of a function whose check of this kind at this place is open:
/// no arguments were found that fail it, up to the last round that was searched. Where none was it is `NAME: open
/// before round 0, KIND at S:L:C, WHY`. The only error is want of memory.
pub fn open_line(
    alloc: Global,
    name: &str,
    searched: Option<u32>,
    kind: CheckKind,
    place: Place,
    reason: Reason,
) -> Result<String, NoMemory>
    ensures { IfOk result (λ s. string_bytes s ≡ open_text name.now searched kind place reason) }
{
    let mut out = format!(in alloc; "{name}: open ")?;
    push_round(&mut out, searched)?;
    out.push_str(", ")?;
    push_check(&mut out, kind, place)?;
    let word = reason_word(reason);
    write!(out, ", {word}\n")?;
    Ok(out)
}

/// The line `V valid, I invalid, O open, D depending`, with the number of functions of each verdict. The only error is
/// want of memory.
pub fn summary_line(
    alloc: Global,
    valid: u32,
    invalid: u32,
    open: u32,
    depending: u32,
) -> Result<String, NoMemory>
    ensures { IfOk result (λ s. string_bytes s ≡ summary_text valid invalid «open» depending) }
{
    format!(in alloc; "{valid} valid, {invalid} invalid, {open} open, {depending} depending\n")
}
