//! Standard output or error, or any writer, as a sink.

ghost use Rattle.std.specs.Prelude.{◌≡◌};

use crate::writes::write_whole;
use crate::{PutFault, Sink};
use std::io::Write;

/// A writer as a sink. It tells what its writer tells: nothing for standard output and standard error.
#[derive(Drop)]
pub struct StdSink<W: Write + Drop> {
    /// Where the pieces go. Each is flushed.
    pub writer: W,
    /// How many puts failed, at most 2^64 - 1.
    pub faults: u64,
}

impl<W: Write + Drop> StdSink<W> {
    /// A sink over this writer, without faults.
    pub fn new(writer: W) -> Self
        ensures writer { result.writer ≡ writer }
        ensures faults { result.faults ≡ 0 }
    {
        StdSink { writer, faults: 0 }
    }
}

impl<W: Write + Drop> Sink for StdSink<W> {
    ghost taken = { λ s. W.contents s.writer };

    ghost faults = { λ s. s.faults };

    fn put(&mut self, bytes: &[u8]) -> Result<(), PutFault> {
        if write_whole(&mut self.writer, bytes) {
            return Ok(());
        }
        self.faults = self.faults.saturating_add(1);
        Err(PutFault::Failed)
    }
}
