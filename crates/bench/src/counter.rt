//! A writer that counts.

ghost use Rattle.std.specs.Prelude.{◌≡◌};

use std::io;
use std::io::Write;

/// Counts the bytes that it is given, and drops them.
#[derive(Drop)]
pub struct Counter {
    bytes: usize,
}

impl Counter {
    pub fn new() -> Counter
        ensures { result.bytes ≡ 0 }
    {
        Counter { bytes: 0 }
    }

    /// Returns how many bytes it was given.
    pub fn bytes(&self) -> usize
        ensures { result ≡ self.now.bytes }
    {
        self.bytes
    }
}

impl Write for Counter {
    fn write(&mut self, buf: &[u8]) -> io::Result<usize> {
        self.bytes = self.bytes.saturating_add(buf.len());
        Ok(buf.len())
    }

    fn flush(&mut self) -> io::Result<()> {
        Ok(())
    }
}
