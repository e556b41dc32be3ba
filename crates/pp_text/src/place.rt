//! Lines and columns.

ghost use Rattle.std.specs.Prelude.{◌≡◌, ◌≤◌, ◌<◌, ◌+◌, ◌^◌, length, IfOk};
ghost use Rattle.pp_text.specs.Limits.{most_bytes};
ghost use Rattle.pp_text.specs.Table.{begins_character, past_bytes, IsTable};

use crate::NoMemory;
use std::alloc::Global;

/// How many bytes lie between two places of a table.
pub(crate) const BYTES_APART: usize = 64;

/// Whether the byte begins a character: any but those that go on with one, 10xxxxxx.
fn begins_character(byte: u8) -> bool
    ensures { result ≡ begins_character byte }
{
    byte < 0x80 || byte >= 0xc0
}

/// The line and the column behind bytes that follow the place `start`.
pub(crate) fn past_bytes(start: (u32, u32), bytes: &[u8]) -> (u32, u32)
    requires line { start.0 + length bytes.now < 2 ^ 32 }
    requires column { start.1 + length bytes.now < 2 ^ 32 }
    ensures { result ≡ past_bytes start bytes.now }
{
    let (mut line, mut column) = start;
    for byte in bytes {
        if *byte == b'\n' {
            line += 1;
            column = 1;
        } else if begins_character(*byte) {
            column += 1;
        }
    }
    (line, column)
}

/// The table of the places in a text: the place at its start, and that behind each [`BYTES_APART`] bytes, the last of
/// them behind the whole text. The only error is want of memory.
pub(crate) fn table(alloc: Global, bytes: &[u8]) -> Result<Vec<(u32, u32)>, NoMemory>
    requires { length bytes.now ≤ most_bytes }
    ensures { IfOk result (λ table. IsTable bytes.now table.items) }
{
    let mut place = (1, 1);
    let mut table = Vec::new(alloc);
    table.push(place)?;
    for chunk in bytes.chunks(BYTES_APART) {
        place = past_bytes(place, chunk);
        table.push(place)?;
    }
    Ok(table)
}
