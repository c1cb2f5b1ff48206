//! Why a run ends, in words for users.

ghost use Rattle.std.specs.Prelude.{◌≡◌};

use handlebars::{RenderError, TemplateError};
use std::alloc::{AllocError, AllocFailed};
use std::{fmt, io};

/// Why a run ends, or why a page isn't written.
#[derive(Drop)]
pub enum Failure {
    Usage,
    /// A template that doesn't compile, with the lines around the error, or a file that can't be read.
    Template(TemplateError),
    /// The rendering of the page at this path failed: the name of the template, the line and the column, and the reason.
    Page(String, RenderError),
    Io(io::Error),
    OutOfMemory,
}

impl fmt::Display for Failure {
    fn fmt<W: fmt::Write>(&self, f: &mut fmt::Formatter<W>) -> fmt::Result {
        match self {
            Failure::Usage => write!(f, "usage: catalog [--dev] TEMPLATES PAGES"),
            Failure::Template(cause) => write!(f, "{cause}"),
            Failure::Page(path, cause) => write!(f, "{path} is not whole. {cause}"),
            Failure::Io(cause) => write!(f, "catalog: {cause}"),
            Failure::OutOfMemory => write!(f, "catalog: out of memory"),
        }
    }
}

impl From<TemplateError> for Failure {
    fn from(cause: TemplateError) -> Self
        ensures { result ≡ Failure.Template cause }
    {
        Failure::Template(cause)
    }
}

impl From<io::Error> for Failure {
    fn from(cause: io::Error) -> Self
        ensures { result ≡ Failure.Io cause }
    {
        Failure::Io(cause)
    }
}

impl From<AllocError> for Failure {
    fn from(_cause: AllocError) -> Self
        ensures { result ≡ Failure.OutOfMemory }
    {
        Failure::OutOfMemory
    }
}

impl<T: Drop> From<AllocFailed<T>> for Failure {
    fn from(_cause: AllocFailed<T>) -> Self
        ensures { result ≡ Failure.OutOfMemory }
    {
        Failure::OutOfMemory
    }
}
