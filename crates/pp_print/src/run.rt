//! The lines on a run.

ghost use Rattle.std.specs.Prelude.{◌≡◌, IfOk, string_bytes};
ghost use Rattle.pp_print.specs.Runs.{deep_text, done_text, fails_text, inner_text, outside_text};

use crate::check::push_check;
use crate::value::push_value;
use pp_prog::{CheckKind, Ctor, Place, Value};
use pp_text::NoMemory;
use std::alloc::Global;

/// The line `NAME = V` of a run that ends with a value. The only error is want of memory.
pub fn done_line(
    alloc: Global,
    ctors: &[Ctor],
    name: &str,
    value: &Value,
) -> Result<String, NoMemory>
    ensures { IfOk result (λ s. string_bytes s ≡ done_text ctors.now name.now value.now) }
{
    let mut out = format!(in alloc; "{name} = ")?;
    push_value(alloc, &mut out, ctors, value)?;
    out.push_str("\n")?;
    Ok(out)
}

/// The line `NAME fails KIND at S:L:C` of a run that fails a check of the function itself. The only error is want of
/// memory.
pub fn fails_line(
    alloc: Global,
    name: &str,
    kind: CheckKind,
    place: Place,
) -> Result<String, NoMemory>
    ensures { IfOk result (λ s. string_bytes s ≡ fails_text name.now kind place) }
{
    let mut out = format!(in alloc; "{name} fails ")?;
    push_check(&mut out, kind, place)?;
    out.push_str("\n")?;
    Ok(out)
}

/// The line `NAME fails inside OTHER, KIND at S:L:C` of a run in which a called function fails a check of its own. The
/// only error is want of memory.
pub fn inner_line(
    alloc: Global,
    name: &str,
    other: &str,
    kind: CheckKind,
    place: Place,
) -> Result<String, NoMemory>
    ensures { IfOk result (λ s. string_bytes s ≡ inner_text name.now other.now kind place) }
{
    let mut out = format!(in alloc; "{name} fails inside {other}, ")?;
    push_check(&mut out, kind, place)?;
    out.push_str("\n")?;
    Ok(out)
}

/// The line of a run whose precondition is false. The only error is want of memory.
pub fn outside_line(alloc: Global, name: &str) -> Result<String, NoMemory>
    ensures { IfOk result (λ s. string_bytes s ≡ outside_text name.now) }
{
    format!(in alloc; "{name} is outside its precondition\n")
}

/// The line of a run that nests more calls than the fuel allows. The only error is want of memory.
pub fn deep_line(alloc: Global, name: &str, fuel: u32) -> Result<String, NoMemory>
    ensures { IfOk result (λ s. string_bytes s ≡ deep_text name.now fuel) }
{
    format!(in alloc; "{name} needs more than {fuel} nested calls\n")
}
