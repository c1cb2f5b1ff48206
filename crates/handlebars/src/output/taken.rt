//! What a writer has taken. It exists in proofs alone: at run time it has no bytes, and nothing is stored.

ghost use Rattle.std.specs.Prelude.{◌≡◌, ◌++◌, []};
ghost use Rattle.std.specs.Borrow.{ftrue};
ghost use Rattle.handlebars_base.specs.Bytes.{Text};

use std::marker::Model;

/// The text that a writer has taken.
#[derive(Drop)]
pub(crate) struct Taken {
    pub(crate) ghost text: { Text },
}

impl Model for Taken {
    ghost also_owns = { λ _. ftrue };
}

impl Taken {
    pub(crate) fn nothing() -> Taken
        ensures { result.text ≡ [] }
    {
        Taken {}
    }

    // The text with these bytes after it.
    pub(crate) fn and(&self, _bytes: &[u8]) -> Taken
        ensures { result.text ≡ self.now.text ++ _bytes.now }
    {
        Taken {}
    }
}
