//! The messages of templates that don't compile and of renderings that fail: the file, the position where it is known, and what is wrong.

ghost use Rattle.std.specs.Prelude.{◌≡◌, ◌≢◌};
ghost use Rattle.handlebars_base.specs.Reasons.{out_of_memory, template_out_of_memory};
ghost use Rattle.handlebars_base.specs.RenderRefusals.{reason_in};
ghost use Rattle.handlebars_base.specs.TemplateRefusals.{template_refusal_of};
ghost use Rattle.hb_command.specs.Failures.{EndsWith, kind_of};
ghost use Rattle.hb.specs.Items.{ReportsFailure};
ghost use Rattle.hb_command.specs.declared.failure.Kind.TheVariants.{OutOfMemory};

use crate::text::Places;
use handlebars::{RenderError, RenderErrorReason, TemplateError, TemplateErrorReason};
use hb_command::failure::{Failure, Kind};
use hb_command::message::shown;
use std::alloc::{AllocError, Global};
use std::fmt;

/// Returns the failure of a template, in a file of this path, that doesn't compile.
pub fn rejected(alloc: Global, path: &str, cause: &TemplateError) -> Failure
    ensures memory { (template_refusal_of cause.now).reason ≡ template_out_of_memory → kind_of result ≡ OutOfMemory }
    ensures status { EndsWith 1 result }
{
    match cause.reason() {
        TemplateErrorReason::OutOfMemory => Failure::out_of_memory(),
        _ => Failure::new(Kind::Template, rejection(alloc, path, cause)),
    }
}

fn rejection(alloc: Global, path: &str, cause: &TemplateError) -> Result<String, AllocError> {
    let path = shown(path);
    let reason = cause.reason();
    match cause.pos() {
        Some((line, column)) => format!(in alloc; "{path}:{line}:{column}: {reason}"),
        None => format!(in alloc; "{path}: {reason}"),
    }
}

/// Returns the failure of a rendering, in a file of this path.
pub fn not_rendered(alloc: Global, path: &str, cause: &RenderError) -> Failure
    ensures memory { reason_in cause.now ≡ out_of_memory → kind_of result ≡ OutOfMemory }
    ensures status { EndsWith 1 result }
{
    let path = shown(path);
    let reason = cause.reason();
    match reason {
        RenderErrorReason::OutOfMemory => Failure::out_of_memory(),
        RenderErrorReason::TemplateError(cause) => rejected(alloc, path, cause),
        reason => Failure::new(Kind::Rendering, rendering(alloc, path, cause, reason)),
    }
}

fn rendering(
    alloc: Global,
    path: &str,
    cause: &RenderError,
    reason: &RenderErrorReason,
) -> Result<String, AllocError> {
    let reason = Why { reason };
    match (cause.line_no, cause.column_no) {
        (Some(line), Some(column)) => format!(in alloc; "{path}:{line}:{column}: {reason}"),
        _ => format!(in alloc; "{path}: {reason}"),
    }
}

// Why a rendering fails, in words of the command line.
#[derive(Clone, Copy)]
struct Why<'r> {
    reason: &'r RenderErrorReason,
}

impl fmt::Display for Why<'_> {
    fn fmt<W: fmt::Write>(&self, f: &mut fmt::Formatter<W>) -> fmt::Result {
        match self.reason {
            RenderErrorReason::MissingVariable(Some(path)) => {
                write!(f, "no value at \"{path}\" (--strict)")
            }
            RenderErrorReason::MissingVariable(None) => f.write_str("no value (--strict)"),
            reason => write!(f, "{reason}"),
        }
    }
}

/// Returns the failure of a rendering of the template at `path`, which has no name. Other templates have the names that they
/// are registered under.
pub fn failed_in(alloc: Global, path: &str, places: &Places<'_>, cause: &RenderError) -> Failure
    ensures memory { reason_in cause.now ≡ out_of_memory → kind_of result ≡ OutOfMemory }
    ensures status { EndsWith 1 result }
{
    match &cause.template_name {
        Some(name) => match places.registered.path_of(places.folders, name.as_str()) {
            Some(path) => not_rendered(alloc, path, cause),
            None => not_rendered(alloc, name.as_str(), cause),
        },
        None => not_rendered(alloc, path, cause),
    }
}

/// Returns the failure of data with a number that is outside the range.
pub fn out_of_range(alloc: Global, cause: &RenderError) -> Failure
    ensures { EndsWith 2 result }
{
    let reason = cause.reason();
    Failure::new(Kind::Input, format!(in alloc; "{reason}"))
}

/// Returns a failure for a build, with its message.
pub fn without_prefix(failure: Failure) -> hb_build::Failure
    ensures { ReportsFailure failure result }
{
    match failure.kind() {
        Kind::OutOfMemory => hb_build::Failure::OutOfMemory,
        _ => match failure.into_message() {
            Some(message) => hb_build::Failure::Fault(message),
            None => hb_build::Failure::OutOfMemory,
        },
    }
}
