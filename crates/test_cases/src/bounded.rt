//! An output that takes a bounded number of bytes.

use crate::fault::Fault;
use handlebars_base::output::{Output, StringOutput};
use std::alloc::Global;
use std::io;

/// Takes at most this many bytes. A write of a segment that is longer than what is left fails, and so does each later write
/// that isn't empty.
#[derive(Drop)]
pub struct Bounded {
    buffer: StringOutput,
    remaining: usize,
    fault: Fault,
    failed: u64,
}

impl Bounded {
    /// Creates an empty output.
    pub fn new(alloc: Global, remaining: usize, fault: Fault) -> Bounded {
        Bounded {
            buffer: StringOutput::new(alloc),
            remaining,
            fault,
            failed: 0,
        }
    }

    /// Returns how many writes failed.
    pub fn failed(&self) -> u64 {
        self.failed
    }

    /// Returns all that was written.
    pub fn into_string(self) -> String {
        self.buffer.into_string()
    }
}

impl Output for Bounded {
    ghost use Rattle.handlebars_base.specs.Outputs.{held_of};

    ghost held = { λ o. record (held_of o.buffer) { write_errors = o.failed } };

    fn write(&mut self, seg: &str) -> Result<(), io::Error> {
        if seg.is_empty() {
            return Ok(());
        }
        if seg.len() > self.remaining {
            self.remaining = 0;
            self.failed = self.failed.saturating_add(1);
            return Err(io::Error::from(self.fault.kind()));
        }
        self.remaining -= seg.len();
        match self.buffer.write(seg) {
            Ok(()) => Ok(()),
            Err(cause) => {
                self.failed = self.failed.saturating_add(1);
                Err(cause)
            }
        }
    }
}
