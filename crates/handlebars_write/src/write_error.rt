//! The outcome of a write that failed.

ghost use Rattle.std.specs.Prelude.{true};
ghost use Rattle.handlebars_semantics.specs.Runs.{plain_write_error};
ghost use Rattle.handlebars_write.specs.OutcomeView.{Reports};
ghost use Rattle.handlebars_write.specs.View.{ReportsWriteError};

use crate::outcome::Outcome;
use handlebars_base::error::{RenderError, RenderErrorReason};
use handlebars_base::output::output_error;
use handlebars_expand::boxed::BoxedError;
use std::alloc::Global;
use std::io;
use std::io::ErrorKind;

/// Returns the outcome that reports a write error, at a boolean helper's text or not.
#[cold]
#[inline(never)]
pub(crate) fn write_error_outcome(
    alloc: Global,
    at_boolean_text: bool,
    write_error: io::Error,
) -> Outcome
    ensures { Reports write_error at_boolean_text result }
{
    if at_boolean_text {
        Outcome::from(BoxedError::new(alloc, boolean_text_error(alloc, write_error)))
    } else {
        Outcome::from(BoxedError::new(alloc, output_error(write_error)))
    }
}

// The error for a boolean helper's text that couldn't be written: `OutOfMemory` when memory runs out, and else `Other` with the
// text of the write error.
fn boolean_text_error(alloc: Global, write_error: io::Error) -> RenderError
    ensures { ReportsWriteError write_error (plain_write_error true) result }
{
    match write_error.kind() {
        ErrorKind::OutOfMemory => RenderErrorReason::OutOfMemory.into(),
        _ => match format!(in alloc; "{write_error}") {
            Ok(text) => RenderErrorReason::Other(text).into(),
            Err(_) => RenderErrorReason::OutOfMemory.into(),
        },
    }
}
