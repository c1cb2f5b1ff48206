//! The trace of an output: what it has received. It exists in proofs alone: at run time it has no bytes, and nothing is stored.

ghost use Rattle.std.specs.Prelude.{◌≡◌};
ghost use Rattle.std.specs.Borrow.{ftrue};
ghost use Rattle.handlebars_expand.specs.PiecesView.{emitted_seen};
ghost use Rattle.handlebars_expand.specs.Received.{Received, nothing_received, with_error, with_piece};

use crate::pieces::Origin;
use std::marker::Model;

/// What a `PieceOutput` has received: the pieces, and how many errors it has returned. For one that has this in no other form:
/// a field of this type is its ghost `received`.
#[derive(Drop)]
pub struct Trace {
    pub ghost received: { Received },
}

impl Model for Trace {
    ghost also_owns = { λ _. ftrue };
}

impl Trace {
    /// Returns the empty trace.
    pub fn nothing() -> Trace
        ensures { result.received ≡ nothing_received }
    {
        Trace {}
    }

    /// Returns the trace with this piece appended, by the bytes of its text.
    pub fn and(&self, _text: &[u8], _origin: &Origin<'_>) -> Trace
        ensures { result.received ≡ with_piece (emitted_seen _text.now _origin.now) self.now.received }
    {
        Trace {}
    }

    /// Returns the trace with one more error.
    pub fn and_error(&self) -> Trace
        ensures { result.received ≡ with_error self.now.received }
    {
        Trace {}
    }
}
