//! The lines of a list of checks.

ghost use Rattle.std.specs.Prelude.{◌≡◌, IfOk, string_bytes};
ghost use Rattle.pp_print.specs.Listed.{count_text, estimate_text};

use crate::check::push_check;
use pp_prog::{CheckKind, Place};
use pp_text::NoMemory;
use std::alloc::Global;

/// The line `NAME: K checks` of a function with the number of its own checks. The only error is want of memory.
pub fn count_line(alloc: Global, name: &str, checks: u32) -> Result<String, NoMemory>
    ensures { IfOk result (λ s. string_bytes s ≡ count_text name.now checks) }
{
    format!(in alloc; "{name}: {checks} checks\n")
}

/// The line `  KIND at S:L:C, estimate E` of a check, with the estimate of a round in gates. The only error is want of
/// memory.
pub fn estimate_line(
    alloc: Global,
    kind: CheckKind,
    place: Place,
    estimate: u64,
) -> Result<String, NoMemory>
    ensures { IfOk result (λ s. string_bytes s ≡ estimate_text kind place estimate) }
{
    let mut out = String::from_str(alloc, "  ")?;
    push_check(&mut out, kind, place)?;
    write!(out, ", estimate {estimate}\n")?;
    Ok(out)
}
