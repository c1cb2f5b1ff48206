//! Errors that are made without a rendering.

use crate::answer::{Answer, Stop, done, printed, said};
use crate::fields::{joined, number, owned, text, text_at};
use handlebars_base::error::{RenderError, TemplateError, TemplateErrorReason};
use handlebars_base::output::output_error;
use serde_json::Value as JsonValue;
use std::alloc::{AllocError, Global};
use std::io;

/// Returns what a call answers.
pub fn answer(
    alloc: Global,
    error: &mut Option<RenderError>,
    call: &str,
    step: &JsonValue,
) -> Answer {
    match call {
        "is" => is(alloc, error),
        "prints" => prints(alloc, error),
        "at" => at(alloc, error, step),
        "in_template" => in_template(alloc, error, owned(alloc, step, "name")),
        "of_template" => of_template(alloc, joined(alloc, step, "source"), step),
        _ => make(alloc, error, error_of(alloc, call, step)),
    }
}

// The error that a call makes.
fn error_of(alloc: Global, call: &str, step: &JsonValue) -> Option<RenderError> {
    match call {
        "strict" => strict(alloc, step),
        "new" => Some(RenderError::new(alloc, text(step, "text"))),
        "from_error" => {
            let cause = io::Error::other(DISK);
            Some(RenderError::from_error(alloc, "info", &cause))
        }
        "of_template_memory" => Some(TemplateError::of(TemplateErrorReason::OutOfMemory).into()),
        "of_memory" => Some(AllocError.into()),
        "of_output_memory" => Some(output_error(AllocError.into())),
        _ => None,
    }
}

const DISK: &str = "disk";

// The error of strict mode for a name, or without one.
fn strict(alloc: Global, step: &JsonValue) -> Option<RenderError> {
    match text_at(step, "name") {
        Some(_) => strict_about(alloc, owned(alloc, step, "name")),
        None => Some(RenderError::strict_error(alloc, None)),
    }
}

fn strict_about(alloc: Global, name: Result<String, AllocError>) -> Option<RenderError> {
    match name {
        Ok(name) => Some(RenderError::strict_error(alloc, Some(&name))),
        Err(AllocError) => None,
    }
}

// Stores the error that a call made. If it made none, the step has no answer.
fn make(alloc: Global, error: &mut Option<RenderError>, made: Option<RenderError>) -> Answer {
    let is_made = made.is_some();
    *error = made;
    match is_made {
        true => done(alloc),
        false => Err(Stop::Call),
    }
}

fn is(alloc: Global, error: &Option<RenderError>) -> Answer {
    match error {
        Some(error) => said(alloc, error),
        None => Err(Stop::Call),
    }
}

fn prints(alloc: Global, error: &Option<RenderError>) -> Answer {
    match error {
        Some(error) => printed(alloc, error),
        None => Err(Stop::Call),
    }
}

fn at(alloc: Global, error: &mut Option<RenderError>, step: &JsonValue) -> Answer {
    let (line, column) = (
        number(step, "line") as usize,
        number(step, "column") as usize,
    );
    let positioned = match error.take() {
        Some(error) => Some(error.at(line, column)),
        None => None,
    };
    make(alloc, error, positioned)
}

fn in_template(
    alloc: Global,
    error: &mut Option<RenderError>,
    name: Result<String, AllocError>,
) -> Answer {
    let named = match (error.take(), name) {
        (Some(error), Ok(name)) => Some(error.in_template(alloc, &name)),
        _ => None,
    };
    make(alloc, error, named)
}

// What the error of a source without a name prints, with a line and a column.
fn of_template(alloc: Global, source: Result<String, AllocError>, step: &JsonValue) -> Answer {
    match source {
        Ok(source) => printed(alloc, error_in(alloc, source.as_str(), step)),
        Err(AllocError) => Err(Stop::OutOfMemory),
    }
}

fn error_in(alloc: Global, source: &str, step: &JsonValue) -> TemplateError {
    let (line, column) = (
        number(step, "line") as usize,
        number(step, "column") as usize,
    );
    TemplateError::of(TemplateErrorReason::NestedSubexpression).at(alloc, source, line, column)
}
