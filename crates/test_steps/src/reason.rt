//! What error reasons print, for those that no rendering of a test case fails with.

use crate::answer::{Answer, Stop, printed, shown};
use crate::fields::{owned, text};
use crate::held::had;
use handlebars_base::error::{
    RenderErrorReason as Reason, TemplateError, TemplateErrorReason as Broken,
};
use handlebars_base::output::output_error;
use serde_json::Value as JsonValue;
use std::alloc::{AllocError, Global};
use std::fmt::Display;
use std::io;

/// Returns what a call answers.
pub fn answer(alloc: Global, call: &str, step: &JsonValue) -> Answer {
    match call {
        "unimplemented" => printed(alloc, Reason::Unimplemented),
        "failed" => printed(alloc, Reason::Failed),
        "template" => printed(
            alloc,
            Reason::from(TemplateError::of(Broken::NestedSubexpression)),
        ),
        "output" => printed(alloc, output_error(io::Error::other("disk"))),
        "json" => json(
            alloc,
            text(step, "kind"),
            JsonValue::from_str(alloc, text(step, "text")),
        ),
        "utf8" => utf8(alloc, text(step, "kind")),
        "param_type" | "hash_type" => of_type(alloc, call, step),
        _ => of_text(alloc, call, step),
    }
}

fn printed_if<T: Display + Drop>(alloc: Global, reason: Result<T, AllocError>) -> Answer {
    match reason {
        Ok(reason) => printed(alloc, reason),
        Err(AllocError) => Err(Stop::OutOfMemory),
    }
}

// A reason that has one text.
fn of_text(alloc: Global, call: &str, step: &JsonValue) -> Answer {
    match call {
        "nested" => printed_if(alloc, owned(alloc, step, "text").map(Reason::NestedError)),
        "walkdir" => printed_if(alloc, owned(alloc, step, "text").map(Broken::WalkdirError)),
        "template_io" => printed_if(alloc, owned(alloc, step, "name").map(io_error)),
        _ => Err(Stop::Call),
    }
}

fn io_error(name: String) -> Broken {
    Broken::IoError(io::Error::other("disk"), name)
}

// A reason that has a name and a type.
fn of_type(alloc: Global, call: &str, step: &JsonValue) -> Answer {
    let (name, kind) = (owned(alloc, step, "name"), owned(alloc, step, "type"));
    match (name, kind) {
        (Ok(name), Ok(kind)) => printed(alloc, mismatch(call, name, kind)),
        _ => Err(Stop::OutOfMemory),
    }
}

fn mismatch(call: &str, name: String, kind: String) -> Reason {
    match call {
        "param_type" => Reason::ParamTypeMismatchForName("len", name, kind),
        _ => Reason::HashTypeMismatchForName("len", name, kind),
    }
}

// Whether a reason that is made from a cause prints its kind, and the cause after it.
fn is_after<E: Display + Drop>(alloc: Global, kind: &str, cause: E) -> Answer
where
    Reason: From<E>,
{
    let expected = format!(in alloc; "{kind}: {cause}");
    prints(alloc, printed(alloc, Reason::from(cause)), expected)
}

fn prints(alloc: Global, text: Answer, expected: Result<String, AllocError>) -> Answer {
    match (text, expected) {
        (Ok(text), Ok(expected)) => shown(alloc, text == expected),
        _ => Err(Stop::OutOfMemory),
    }
}

// The reason made from the error of a text that isn't JSON.
fn json(alloc: Global, kind: &str, read: Result<JsonValue, serde_json::Error>) -> Answer {
    match read {
        Ok(_) => Err(Stop::Field),
        Err(cause) => is_after(alloc, kind, cause),
    }
}

// The reason made from the error of bytes that aren't UTF-8.
fn utf8(alloc: Global, kind: &str) -> Answer {
    match had(vec![in alloc; 255]) {
        Ok(bytes) => utf8_of(alloc, kind, bytes),
        Err(stop) => Err(stop),
    }
}

fn utf8_of(alloc: Global, kind: &str, bytes: Vec<u8>) -> Answer {
    match String::from_utf8(bytes) {
        Ok(_) => Err(Stop::Call),
        Err(cause) => is_after(alloc, kind, cause),
    }
}
