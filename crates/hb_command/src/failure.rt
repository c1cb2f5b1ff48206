//! Why a run fails, what it says and with which status it ends.

ghost use Rattle.std.specs.Prelude.{◌≡◌, ◌<◌, ◌≤◌, OnErr, OnOk};
ghost use Rattle.hb_command.specs.Failures.{EndsWith, kind_of, message_of, status_of};
ghost use Rattle.hb_command.specs.declared.failure.Kind.TheVariants.{OutOfMemory};

use std::alloc::{AllocError, AllocFailed, Global};
use std::fmt;

/// What a run fails for.
#[derive(Clone, Copy, Debug, PartialEq, Eq)]
pub enum Kind {
    /// The arguments, or names in them, are wrong.
    Arguments,
    /// A file or a folder can't be read, or data can't be.
    Input,
    /// A template doesn't compile.
    Template,
    /// A rendering fails.
    Rendering,
    /// An output can't be written.
    Output,
    OutOfMemory,
}

/// A failure: its kind and its message, which names the file and the position where they are known.
#[derive(Debug)]
pub struct Failure {
    kind: Kind,
    message: Option<String>,
}

// Not derived, so that each drop of one is a single call.
impl Drop for Failure {
    fn drop(self) {
        let Failure {
            kind: _,
            message: _,
        } = self;
    }
}

impl Failure {
    /// Creates a failure of a kind with a message, or one of memory if there was none for the message.
    pub fn new(kind: Kind, message: Result<String, AllocError>) -> Failure
        ensures kind { OnOk message (kind_of result ≡ kind) }
        ensures memory { OnErr message (kind_of result ≡ OutOfMemory) }
        ensures status { EndsWith (status_of kind) result }
    {
        match message {
            Ok(message) => Failure {
                kind,
                message: Some(message),
            },
            Err(AllocError) => Failure::out_of_memory(),
        }
    }

    /// Creates a failure of a kind with a copy of a message.
    pub fn of_text(alloc: Global, kind: Kind, message: &str) -> Failure
        ensures { EndsWith (status_of kind) result }
    {
        Failure::new(kind, String::from_str(alloc, message))
    }

    /// Creates the failure of a run that is out of memory.
    pub fn out_of_memory() -> Failure
        ensures { kind_of result ≡ OutOfMemory }
    {
        Failure {
            kind: Kind::OutOfMemory,
            message: None,
        }
    }

    /// Returns the failure, of wrong arguments.
    pub fn of_arguments(self) -> Failure
        ensures { EndsWith 2 result }
    {
        let mut failure = self;
        match failure.kind {
            Kind::OutOfMemory => failure,
            _ => {
                failure.kind = Kind::Arguments;
                failure
            }
        }
    }

    /// Returns the message, or `None` if memory ran out.
    pub fn into_message(self) -> Option<String>
        ensures { result ≡ message_of self }
    {
        let Failure { kind: _, message } = self;
        message
    }

    /// Returns the kind.
    pub fn kind(&self) -> Kind
        ensures { result ≡ kind_of self.now }
    {
        self.kind
    }

    /// Returns the exit status of the run: 2 for wrong arguments and for what can't be read, and 1 for any other failure.
    pub fn status(&self) -> u8
        ensures { result ≡ status_of (kind_of self.now) }
    {
        match self.kind {
            Kind::Arguments => 2,
            Kind::Input => 2,
            Kind::Template => 1,
            Kind::Rendering => 1,
            Kind::Output => 1,
            Kind::OutOfMemory => 1,
        }
    }
}

impl From<AllocError> for Failure {
    ghost from_gives = { λ _ e. kind_of e ≡ OutOfMemory };

    fn from(_e: AllocError) -> Failure {
        Failure::out_of_memory()
    }
}

impl<T: Drop> From<AllocFailed<T>> for Failure {
    ghost from_gives = { λ _ e. kind_of e ≡ OutOfMemory };

    fn from(_e: AllocFailed<T>) -> Failure {
        Failure::out_of_memory()
    }
}

/// Writes the message after the name of the program.
impl fmt::Display for Failure {
    fn fmt<W: fmt::Write>(&self, f: &mut fmt::Formatter<W>) -> fmt::Result {
        match &self.message {
            Some(message) => write!(f, "hb: {message}"),
            None => f.write_str("hb: out of memory"),
        }
    }
}
