//! An output that is given each piece.

use handlebars::{Origin, PieceOutput, Trace};
use std::alloc::Global;
use std::io;

/// Stores the joined texts of the pieces, and drops their origins.
#[derive(Drop)]
pub struct Texts {
    text: String,
    trace: Trace,
}

impl Texts {
    pub fn new(alloc: Global) -> Texts {
        Texts {
            text: String::new(alloc),
            trace: Trace::nothing(),
        }
    }

    /// Returns how many bytes they have.
    pub fn bytes(&self) -> usize {
        self.text.len()
    }
}

impl PieceOutput for Texts {
    ghost received = { λ o. o.trace.received };

    fn piece(&mut self, text: &str, origin: &Origin<'_>) -> Result<(), io::Error> {
        match self.text.push_str(text) {
            Ok(()) => {
                self.trace = self.trace.and(text.as_bytes(), origin);
                Ok(())
            }
            Err(cause) => {
                self.trace = self.trace.and_error();
                Err(cause.into())
            }
        }
    }
}
