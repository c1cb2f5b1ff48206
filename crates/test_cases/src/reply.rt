//! The answer of a call, printed.

ghost use Rattle.std.specs.Prelude.{◌≡◌, IsTrue};
ghost use Rattle.test_cases.specs.Replies.{reply_of, reply_view};

use handlebars_base::error::RenderError;
use std::alloc::{AllocError, Global};
use std::fmt;
use std::fmt::{Debug, Display};

/// The answer of a call, printed.
#[derive(Clone, Copy)]
pub enum Reply<'t> {
    Gives(&'t str),
    /// The whole text of the error.
    Prints(&'t str),
}

impl Reply<'_> {
    /// Returns whether both replies are equal.
    pub fn equals(&self, expected: &Reply<'_>) -> bool
        ensures { IsTrue result → reply_view self.now ≡ reply_view expected.now }
    {
        match (self, expected) {
            (Reply::Gives(own), Reply::Gives(expected)) => *own == *expected,
            (Reply::Prints(own), Reply::Prints(expected)) => *own == *expected,
            _ => false,
        }
    }
}

impl fmt::Display for Reply<'_> {
    fn fmt<W: fmt::Write>(&self, f: &mut fmt::Formatter<W>) -> fmt::Result {
        match self {
            Reply::Gives(text) => write!(f, "gives {text:?}"),
            Reply::Prints(text) => write!(f, "prints {text:?}"),
        }
    }
}

/// A stored reply.
#[derive(Drop)]
pub enum OwnedReply {
    Gives(String),
    /// The whole text of the error.
    Prints(String),
}

impl OwnedReply {
    /// Returns the reply, borrowed.
    pub fn reply(&self) -> Reply<'_>
        ensures { reply_view result ≡ reply_of self.now }
    {
        match self {
            OwnedReply::Gives(text) => Reply::Gives(text.as_str()),
            OwnedReply::Prints(text) => Reply::Prints(text.as_str()),
        }
    }
}

/// Prints a value by its constructors.
pub fn shown(alloc: Global, value: &impl Debug) -> Result<OwnedReply, AllocError> {
    Ok(OwnedReply::Gives(format!(in alloc; "{value:?}")?))
}

/// Prints the value that an answer holds. Fails if there was no memory for it.
pub fn held<T: Debug + Drop>(
    alloc: Global,
    answer: Result<T, AllocError>,
) -> Result<OwnedReply, AllocError> {
    shown(alloc, &answer?)
}

fn printed(alloc: Global, error: &impl Display) -> Result<OwnedReply, AllocError> {
    Ok(OwnedReply::Prints(error.to_string(alloc)?))
}

/// Prints the value that an answer holds, or the text of its error.
pub fn answered<T: Debug + Drop, E: Display + Drop>(
    alloc: Global,
    answer: Result<T, E>,
) -> Result<OwnedReply, AllocError> {
    match answer {
        Ok(value) => shown(alloc, &value),
        Err(error) => printed(alloc, &error),
    }
}

/// Returns a text, or the text of the error.
pub fn text_or_error(
    alloc: Global,
    answer: Result<String, RenderError>,
) -> Result<OwnedReply, AllocError> {
    match answer {
        Ok(text) => Ok(OwnedReply::Gives(text)),
        Err(error) => printed(alloc, &error),
    }
}
