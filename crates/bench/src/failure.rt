//! Why a run ends before all of its arguments are done.

ghost use Rattle.std.specs.Prelude.{◌≡◌, ◌<◌, ◌≤◌};

use handlebars::{RenderError, RenderErrorReason, TemplateError, TemplateErrorReason};
use std::alloc::AllocError;
use std::fmt;

/// Why a run ends before all of its arguments are done. The cause of an error is not stored, since a work fails only when
/// memory runs out.
#[derive(Clone, Copy)]
pub enum Failure {
    Usage,
    NotJson,
    Uncompiled,
    NotRendered,
    OutOfMemory,
    NoClock,
    CannotWrite,
}

impl Failure {
    /// Returns the exit status of the run: 2 if the arguments are wrong, and 1 otherwise.
    pub fn status(&self) -> u8
        ensures bound { result ≤ 2 }
        ensures failed { 0 < result }
        ensures usage { self.now ≡ Failure.Usage → result ≡ 2 }
    {
        match self {
            Failure::Usage => 2,
            Failure::NotJson => 1,
            Failure::Uncompiled => 1,
            Failure::NotRendered => 1,
            Failure::OutOfMemory => 1,
            Failure::NoClock => 1,
            Failure::CannotWrite => 1,
        }
    }
}

impl From<AllocError> for Failure {
    fn from(_e: AllocError) -> Self {
        Failure::OutOfMemory
    }
}

impl From<TemplateError> for Failure {
    fn from(cause: TemplateError) -> Self {
        match cause.reason() {
            TemplateErrorReason::OutOfMemory => Failure::OutOfMemory,
            _ => Failure::Uncompiled,
        }
    }
}

impl From<RenderError> for Failure {
    fn from(cause: RenderError) -> Self {
        match cause.reason() {
            RenderErrorReason::OutOfMemory => Failure::OutOfMemory,
            _ => Failure::NotRendered,
        }
    }
}

impl fmt::Display for Failure {
    fn fmt<W: fmt::Write>(&self, f: &mut fmt::Formatter<W>) -> fmt::Result {
        match self {
            Failure::Usage => { f.write_str("usage: bench [times=N] [writer] WORK[=SIZE] ..") }
            Failure::NotJson => f.write_str("bench: not JSON"),
            Failure::Uncompiled => f.write_str("bench: a template doesn't compile"),
            Failure::NotRendered => f.write_str("bench: a rendering is refused"),
            Failure::OutOfMemory => f.write_str("Out of memory"),
            Failure::NoClock => f.write_str("bench: no clock"),
            Failure::CannotWrite => f.write_str("bench: cannot write"),
        }
    }
}
