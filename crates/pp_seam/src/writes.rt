//! Writing a whole piece, to any writer.

ghost use Rattle.std.specs.Prelude.{◌≡◌, ◌≤◌, [], take, length, IfSome, IfNone, IsTrue, IsFalse};
ghost use Rattle.std.specs.Io.KnownBytes.{Appends, Keeps};
ghost use Rattle.pp_seam.specs.Pieces.{AppendsFront};

use crate::tries::TRIES;
use std::io::{ErrorKind, Write};

// One write, which an interruption doesn't end. None: it failed.
fn write_some<W: Write>(writer: &mut W, bytes: &[u8]) -> Option<usize>
    ensures bound { IfSome result (λ n. n ≤ length bytes.now) }
    ensures bytes { IfSome result (λ n. Appends (W.contents writer.old) (W.contents writer.new) (take n bytes.now)) }
    ensures none { IfNone result (Keeps (W.contents writer.old) (W.contents writer.new)) }
{
    for _ in 0..TRIES {
        match writer.write(bytes) {
            Ok(count) => return Some(count),
            Err(e) if e.kind() == ErrorKind::Interrupted => {}
            Err(_) => return None,
        }
    }
    None
}

// Sends on what the writer keeps in a buffer; false where that failed.
fn flush_all<W: Write>(writer: &mut W) -> bool
    ensures { Keeps (W.contents writer.old) (W.contents writer.new) }
{
    for _ in 0..TRIES {
        match writer.flush() {
            Ok(()) => return true,
            Err(e) if e.kind() == ErrorKind::Interrupted => {}
            Err(_) => return false,
        }
    }
    false
}

/// Writes a piece whole and flushes it; false where that failed, and then a front of the piece was written.
///
/// A writer that takes nothing of what is left has failed. An interrupted write is tried 1,000 times, and then has
/// failed. An empty piece is written without a call of the writer.
pub(crate) fn write_whole<W: Write>(writer: &mut W, bytes: &[u8]) -> bool
    ensures whole { IsTrue result → Appends (W.contents writer.old) (W.contents writer.new) bytes.now }
    ensures front { AppendsFront (W.contents writer.old) (W.contents writer.new) bytes.now }
    ensures empty { bytes.now ≡ [] → IsTrue result }
{
    if bytes.is_empty() {
        return true;
    }
    let mut rest = bytes;
    'rests: while !rest.is_empty() {
        match write_some(writer, rest) {
            None | Some(0) => return false,
            Some(count) => rest = &rest[count..],
        }
    }
    flush_all(writer)
}
