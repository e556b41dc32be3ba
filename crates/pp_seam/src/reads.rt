//! Reading up to a limit, from any reader.

ghost use Rattle.std.specs.Prelude.{◌≡◌, ◌≤◌, ◌<◌, ◌+◌, ℕ, List, take, length, IfOk, IfErr, IsErrOf, OnErr, IfSome};
ghost use Rattle.std.specs.Prelude.{IfNone};
ghost use Rattle.std.specs.Io.KnownBytes.{Consumes, IsAtEnd, Keeps};
ghost use Rattle.pp_seam.specs.Reads.{ConsumesAtMost, IsOverlong, GaveOverlong};
ghost use Rattle.pp_seam.specs.declared.reads.ReadFault.TheVariants.{Memory};

use crate::tries::TRIES;
use std::alloc::{AllocError, Global};
use std::io::{ErrorKind, Read};

// How many bytes are asked of the reader at once, so that a large limit by itself wants no memory.
const CHUNK: usize = 4096;

/// Why a reader's bytes weren't given.
#[derive(Debug, Drop)]
pub enum ReadFault {
    /// A read failed.
    Failed,
    /// The reader has more bytes than the limit: those that were read, one more than the limit.
    TooLong(Vec<u8>),
    /// There was no memory.
    Memory,
}

impl From<AllocError> for ReadFault {
    ghost from_gives = { λ _ e. e ≡ Memory };

    fn from(_: AllocError) -> Self {
        ReadFault::Memory
    }
}

// One read, which an interruption doesn't end. None: it failed.
fn read_some<R: Read>(reader: &mut R, buffer: &mut [u8]) -> Option<usize>
    ensures bound { IfSome result (λ n. n ≤ length buffer.new) }
    ensures bytes { IfSome result (λ n.
        Consumes (R.remaining reader.old) (R.remaining reader.new) (take n buffer.new)) }
    ensures end { IfSome result (λ n. n ≡ 0 → 0 < length buffer.new → IsAtEnd (R.remaining reader.new)) }
    ensures none { IfNone result (Keeps (R.remaining reader.old) (R.remaining reader.new)) }
{
    for _ in 0..TRIES {
        match reader.read(buffer) {
            Ok(count) => return Some(count),
            Err(e) if e.kind() == ErrorKind::Interrupted => {}
            Err(_) => return None,
        }
    }
    None
}

/// All that a reader has left, of which there are at most `limit` bytes. At most `limit + 1` bytes are read.
///
/// A reader that gives nothing is at its end. An interrupted read is tried 1,000 times, and then has failed.
///
/// # Errors
///
/// `Failed` where a read failed, of which a reader tells nothing: the clauses `failed` and `at_most` speak of it.
/// `TooLong` where `limit + 1` bytes were read, with these; `Memory`.
pub fn read_within<R: Read>(
    alloc: Global,
    reader: &mut R,
    limit: usize,
) -> Result<Vec<u8>, ReadFault>
    ensures bound { IfOk result (λ v. length v.items ≤ limit) }
    ensures bytes { IfOk result (λ v. Consumes (R.remaining reader.old) (R.remaining reader.new) v.items) }
    ensures end { IfOk result (λ v. IsAtEnd (R.remaining reader.new)) }
    ensures long { IfErr result (IsOverlong limit) }
    ensures long_bytes { IfErr result (GaveOverlong (R.remaining reader.old) (R.remaining reader.new)) }
    ensures failed { IsErrOf result ReadFault.Failed
        → ConsumesAtMost (R.remaining reader.old) (R.remaining reader.new) limit }
    ensures at_most { ConsumesAtMost (R.remaining reader.old) (R.remaining reader.new) (limit + 1) }
{
    let mut bytes = Vec::new(alloc);
    let mut chunk = [0u8; CHUNK];
    'chunks: while bytes.len() <= limit {
        let wanted = (limit - bytes.len()).min(CHUNK - 1) + 1;
        match read_some(reader, &mut chunk[..wanted]) {
            None => return Err(ReadFault::Failed),
            Some(0) => return Ok(bytes),
            Some(count) => bytes.extend_from_slice(&chunk[..count])?,
        }
    }
    Err(ReadFault::TooLong(bytes))
}
