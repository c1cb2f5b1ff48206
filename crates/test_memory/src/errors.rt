//! Errors: if there is no memory for an error's text, its reason is out of memory, and it has nothing else.

use crate::given::value_of;
use crate::outcome::{Outcome, Stop, of_error, of_template_error, of_text};
use handlebars::{RenderError, RenderErrorReason, TemplateError, TemplateErrorReason};
use std::alloc::Global;

/// A call that creates or prints an error.
pub enum Call {
    New,
    StrictError,
    FromError,
    InTemplate,
    Print,
    TemplateAt,
    PrintTemplate,
}

/// Returns the outcome of a call.
pub fn outcome(alloc: Global, call: &Call) -> Result<Outcome, Stop> {
    match call {
        Call::New => of_reason(alloc, RenderError::new(alloc, "fault"), "fault"),
        Call::StrictError => strict_error(alloc),
        Call::FromError => from_error(alloc),
        Call::InTemplate => in_template(alloc),
        Call::Print => printed(alloc),
        Call::TemplateAt => Ok(at(alloc)),
        Call::PrintTemplate => template_printed(alloc),
    }
}

fn of_reason(alloc: Global, error: RenderError, expected: &str) -> Result<Outcome, Stop> {
    if of_error(&error).is_out_of_memory() {
        return Ok(Outcome::OutOfMemory.if_so(is_bare(&error)));
    }
    let text = error.reason().to_string(alloc)?;
    Ok(Outcome::answer_if(text.as_str() == expected))
}

// Returns whether the error has no name and no position.
fn is_bare(error: &RenderError) -> bool {
    error.template_name.is_none() && error.line_no.is_none() && error.column_no.is_none()
}

fn strict_error(alloc: Global) -> Result<Outcome, Stop> {
    let path = String::from_str(alloc, "a.b")?;
    let error = RenderError::strict_error(alloc, Some(&path));
    let expected = "Failed to access variable in strict mode Some(\"a.b\")";
    of_reason(alloc, error, expected)
}

fn from_error(alloc: Global) -> Result<Outcome, Stop> {
    let cause = value_of(alloc, r#"{"k":[1,"a"]}"#)?;
    let error = RenderError::from_error(alloc, "info", &cause);
    of_reason(alloc, error, r#"Nested error: {"k":[1,"a"]}"#)
}

fn in_template(alloc: Global) -> Result<Outcome, Stop> {
    let name = String::from_str(alloc, "page")?;
    let error = RenderError::from(RenderErrorReason::Unimplemented).in_template(alloc, &name);
    if of_error(&error).is_out_of_memory() {
        return Ok(Outcome::OutOfMemory.if_so(is_bare(&error)));
    }
    Ok(Outcome::answer_if(error.template_name == Some(name)))
}

fn printed(alloc: Global) -> Result<Outcome, Stop> {
    let error = RenderError::new(alloc, "fault").at(3, 4);
    if of_error(&error).is_out_of_memory() {
        return Err(Stop::Memory);
    }
    let expected = "Error rendering \"Unnamed template\" line 3, col 4: fault";
    Ok(of_text(error.to_string(alloc), expected))
}

fn at(alloc: Global) -> Outcome {
    let error = TemplateError::of(TemplateErrorReason::NestedSubexpression).at(alloc, "ab", 1, 2);
    if of_template_error(&error).is_out_of_memory() {
        return Outcome::OutOfMemory.if_so(error.pos().is_none() && error.name().is_none());
    }
    Outcome::answer_if(error.pos() == Some((1, 2)))
}

const PRINTED: &str = r#"Template error: nested subexpression is not supported
    --> Template error in "Unnamed template":1:1
     |
   0 | ab
     |-^
     |
     = reason: nested subexpression is not supported
"#;

fn template_printed(alloc: Global) -> Result<Outcome, Stop> {
    let error = TemplateError::of(TemplateErrorReason::NestedSubexpression).at(alloc, "ab", 1, 1);
    if of_template_error(&error).is_out_of_memory() {
        return Err(Stop::Memory);
    }
    Ok(of_text(error.to_string(alloc), PRINTED))
}
