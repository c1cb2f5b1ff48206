//! What a step answers, as a text.

use handlebars_base::error::{RenderError, RenderErrorReason};
use std::alloc::{AllocError, AllocFailed, Global};
use std::fmt;
use std::fmt::{Debug, Display};
use std::io::ErrorKind;

/// Why a step has no answer.
#[derive(Clone, Copy)]
pub enum Stop {
    OutOfMemory,
    /// A field that it needs is missing or wrong.
    Field,
    /// No call has this name, or the call is not allowed here.
    Call,
}

impl Stop {
    /// Returns the message.
    pub fn text(self) -> &'static str {
        match self {
            Stop::OutOfMemory => "out of memory",
            Stop::Field => "a field is missing or wrong",
            Stop::Call => "there is no such call",
        }
    }
}

impl From<AllocError> for Stop {
    fn from(_e: AllocError) -> Self {
        Stop::OutOfMemory
    }
}

impl<T: Drop> From<AllocFailed<T>> for Stop {
    fn from(_e: AllocFailed<T>) -> Self {
        Stop::OutOfMemory
    }
}

/// The text that is compared, or why there is none.
pub type Answer = Result<String, Stop>;

/// Returns the text as an answer.
pub fn text_answer(text: Result<String, AllocError>) -> Answer {
    text.map_err(Stop::from)
}

/// Prints a value by its constructors.
pub fn shown<T: Debug + Drop>(alloc: Global, value: T) -> Answer {
    text_answer(format!(in alloc; "{value:?}"))
}

/// Prints a value as it displays itself.
pub fn printed<T: Display + Drop>(alloc: Global, value: T) -> Answer {
    text_answer(format!(in alloc; "{value}"))
}

/// Prints a value by its constructors, if it was made.
pub fn shown_if<T: Debug + Drop>(alloc: Global, made: Result<T, Stop>) -> Answer {
    match made {
        Ok(value) => shown(alloc, value),
        Err(stop) => Err(stop),
    }
}

/// Returns the answer of a call that returns nothing.
pub fn done(alloc: Global) -> Answer {
    shown(alloc, ())
}

/// Prints the parts of an error: its reason, its line, its column and its template name, by their constructors.
pub fn said(alloc: Global, error: &RenderError) -> Answer {
    let position = (error.line_no, error.column_no);
    shown(
        alloc,
        (error.reason(), position.0, position.1, &error.template_name),
    )
}

/// Prints the parts of the error that a call fails with.
pub fn failed<T: Drop>(alloc: Global, answer: Result<T, RenderError>) -> Answer {
    match answer {
        Ok(_) => printed(alloc, "no error"),
        Err(error) => said(alloc, &error),
    }
}

/// Prints the template name of the error.
pub fn name_in(alloc: Global, answer: Result<String, RenderError>) -> Answer {
    match answer {
        Ok(_) => done(alloc),
        Err(error) => shown(alloc, &error.template_name),
    }
}

/// Prints the error as it displays itself, after the kind of its cause if that is an I/O error.
pub fn error_in(alloc: Global, answer: Result<String, RenderError>) -> Answer {
    match answer {
        Ok(_) => done(alloc),
        Err(error) => printed(alloc, AfterKind(&error)),
    }
}

#[derive(Clone, Copy)]
struct AfterKind<'e>(&'e RenderError);

impl Display for AfterKind<'_> {
    fn fmt<W: fmt::Write>(&self, f: &mut fmt::Formatter<W>) -> fmt::Result {
        let kind = kind_of(self.0);
        write!(f, "{kind:?}: {}", self.0)
    }
}

fn kind_of(error: &RenderError) -> Option<ErrorKind> {
    match error.reason() {
        RenderErrorReason::IOError(cause) => Some(cause.kind()),
        _ => None,
    }
}
