//! A writer that is slow, and then full.

use std::io;
use std::io::Write;

/// Takes at most two bytes a write, and nothing more after a number of writes. It has no contract about what it holds.
pub struct Slow {
    pub taken: Vec<u8>,
    pub left: u64,
}

impl Drop for Slow {
    fn drop(self) {
        let Slow { taken: _, left: _ } = self;
    }
}

impl Write for Slow {
    fn write(&mut self, buf: &[u8]) -> io::Result<usize> {
        if self.left == 0 {
            return Ok(0);
        }
        self.left -= 1;
        let count = buf.len().min(2);
        self.taken.extend_from_slice(&buf[..count])?;
        Ok(count)
    }

    fn flush(&mut self) -> io::Result<()> {
        Ok(())
    }
}
