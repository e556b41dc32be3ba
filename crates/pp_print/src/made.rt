//! The line on functions that were made.

ghost use Rattle.std.specs.Prelude.{◌≡◌, IfOk, string_bytes};
ghost use Rattle.pp_print.specs.Made.{made_text};

use pp_text::NoMemory;
use std::alloc::Global;

/// The line `made N functions`, with the number of functions of a source that was made. The only error is want of
/// memory.
pub fn made_line(alloc: Global, functions: u32) -> Result<String, NoMemory>
    ensures { IfOk result (λ s. string_bytes s ≡ made_text functions) }
{
    format!(in alloc; "made {functions} functions\n")
}
