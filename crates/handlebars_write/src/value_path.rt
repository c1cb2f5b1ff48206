//! The paths of values. Their names are made only where an output asks for them.

ghost use Rattle.std.specs.Prelude.{◌≡◌, List, None, Option, option_map};
ghost use Rattle.handlebars_base.specs.Bytes.{Text};
ghost use Rattle.handlebars_layers.specs.FullPathView.{names_on};

use handlebars_layers::full_path::FullPath;

/// How a value was reached in the data.
pub trait ValuePath {
    // The names that lead from the data to the value, if it has a path.
    ghost names: { Self → Option (List Text) };

    /// Returns the full path of the value, or `None` if it has no path. Takes no memory.
    fn path(&self) -> Option<FullPath<'_>>
        ensures { option_map names_on result ≡ names self.now };
}

/// No path: for a literal or a value that a helper chose.
#[derive(Clone, Copy)]
pub struct NoPath;

impl ValuePath for NoPath {
    ghost names = { λ _. None };

    fn path(&self) -> Option<FullPath<'_>> {
        None
    }
}
