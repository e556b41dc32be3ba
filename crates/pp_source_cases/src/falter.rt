//! A writer and a reader that falter.

use std::io;
use std::io::{ErrorKind, Read, Write};

/// A writer whose first calls are interrupted, and which then takes so many bytes a write. A flush may fail.
#[derive(Clone, Copy)]
pub struct Slow {
    pub interrupted: u32,
    pub step: usize,
    pub flush_interrupted: u32,
    pub flushes: bool,
    pub taken: usize,
}

/// A reader of so many bytes 7, whose first reads are interrupted. At the end it fails, or it gives nothing.
#[derive(Clone, Copy)]
pub struct Drip {
    pub interrupted: u32,
    pub left: usize,
    pub step: usize,
    pub fails: bool,
}

/// Interrupts a call as long as interruptions are left.
fn interrupt(left: &mut u32) -> io::Result<()> {
    if *left == 0 {
        return Ok(());
    }
    *left -= 1;
    Err(io::Error::from(ErrorKind::Interrupted))
}

impl Write for Slow {
    fn write(&mut self, buf: &[u8]) -> io::Result<usize> {
        interrupt(&mut self.interrupted)?;
        let count = self.step.min(buf.len());
        self.taken = self.taken.saturating_add(count);
        Ok(count)
    }

    fn flush(&mut self) -> io::Result<()> {
        interrupt(&mut self.flush_interrupted)?;
        if self.flushes {
            return Ok(());
        }
        Err(io::Error::from(ErrorKind::BrokenPipe))
    }
}

impl Read for Drip {
    fn read(&mut self, buf: &mut [u8]) -> io::Result<usize> {
        interrupt(&mut self.interrupted)?;
        if self.left == 0 && self.fails {
            return Err(io::Error::from(ErrorKind::BrokenPipe));
        }
        let count = self.step.min(self.left).min(buf.len());
        self.left -= count;
        buf[..count].fill(7);
        Ok(count)
    }
}
