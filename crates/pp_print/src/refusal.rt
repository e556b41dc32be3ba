//! The lines on why there is no verdict.

ghost use Rattle.std.specs.Prelude.{◌≡◌, IfOk, string_bytes};
ghost use Rattle.pp_print.specs.Refusals.{memory_text, not_utf8_text, read_fault_text, too_long_text};
ghost use Rattle.pp_print.specs.Refusals.{words_text, write_fault_text};

use pp_text::NoMemory;
use std::alloc::Global;

/// The line of a source that has too many bytes. Sources have numbers from 1. The only error is want of memory.
pub fn too_long_line(alloc: Global, source: u32) -> Result<String, NoMemory>
    ensures { IfOk result (λ s. string_bytes s ≡ too_long_text source) }
{
    format!(in alloc; "refused: too long source {source}\n")
}

/// The line of a source that isn't UTF-8 (Unicode Standard, chapter 3, table 3-7). The offset, from 0, is that of the
/// first byte that begins no character; sources have numbers from 1. The only error is want of memory.
pub fn not_utf8_line(alloc: Global, offset: u32, source: u32) -> Result<String, NoMemory>
    ensures { IfOk result (λ s. string_bytes s ≡ not_utf8_text offset source) }
{
    format!(in alloc; "refused: not utf-8 at byte {offset} of source {source}\n")
}

/// The line of a command line that isn't accepted. It takes no memory.
pub fn words_line() -> &'static str
    ensures { result.now ≡ words_text }
{
    "words refused\n"
}

/// The line of a path that can't be read. The only error is want of memory.
pub fn read_fault_line(alloc: Global, path: &str) -> Result<String, NoMemory>
    ensures { IfOk result (λ s. string_bytes s ≡ read_fault_text path.now) }
{
    format!(in alloc; "read fault: {path}\n")
}

/// The line of an output that doesn't take what is put. It takes no memory.
pub fn write_fault_line() -> &'static str
    ensures { result.now ≡ write_fault_text }
{
    "write fault\n"
}

/// The line of want of memory. It takes no memory.
pub fn memory_line() -> &'static str
    ensures { result.now ≡ memory_text }
{
    "out of memory\n"
}
