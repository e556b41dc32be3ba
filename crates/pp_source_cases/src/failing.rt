//! A sink that fails once.

ghost use Rattle.std.specs.Prelude.{None};

use pp_seam::{PutFault, Sink};

/// A sink that fails at the put of a number from 1, having taken five bytes of the piece. It counts what it is given.
#[derive(Clone, Copy)]
pub struct Failing {
    pub fails_at: usize,
    pub puts: usize,
    pub faults: usize,
    pub taken: usize,
}

impl Failing {
    /// One that fails at the put of this number; with 0 it never fails.
    pub fn at(fails_at: usize) -> Failing {
        Failing {
            fails_at,
            puts: 0,
            faults: 0,
            taken: 0,
        }
    }
}

impl Sink for Failing {
    ghost taken = { λ _. None };

    ghost faults = { λ s. s.faults };

    fn put(&mut self, bytes: &[u8]) -> Result<(), PutFault> {
        if bytes.is_empty() {
            return Ok(());
        }
        self.puts = self.puts.saturating_add(1);
        if self.puts != self.fails_at {
            self.taken = self.taken.saturating_add(bytes.len());
            return Ok(());
        }
        self.taken = self.taken.saturating_add(bytes.len().min(5));
        self.faults = self.faults.saturating_add(1);
        Err(PutFault::Failed)
    }
}
