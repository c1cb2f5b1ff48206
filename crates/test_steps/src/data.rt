//! Data, and values that are converted to data.

use crate::answer::{Answer, Stop, done, failed, shown, shown_if, text_answer};
use crate::fields::{copied, items, number, number_at, text};
use crate::held::{had, if_made, put};
use crate::made::data::{bytes_of, context_of};
use handlebars_base::error::{RenderError, RenderErrorReason};
use handlebars_base::json::value::{as_string, to_json};
use handlebars_scope::context::Context;
use serde::Serialize;
use serde_json::Value as JsonValue;
use std::alloc::{AllocError, Global};

/// Returns what a call answers.
pub fn answer(
    alloc: Global,
    data: &mut Context,
    copy: &mut Context,
    call: &str,
    step: &JsonValue,
) -> Answer {
    match call {
        "is" => shown(alloc, data.data()),
        "set" => shown_if(alloc, put(data, context_of(step, "to"))),
        "null" => {
            *data = Context::null();
            done(alloc)
        }
        "wrap" => wrap(alloc, data, step),
        "copy" => shown_if(alloc, put(copy, had(data.clone(alloc)))),
        "copy_is" => shown(alloc, copy.data()),
        "set_copy" => set_copy(alloc, copy, copied(step, "to")),
        _ => of_value(alloc, call, step),
    }
}

// Wraps a number of eight bits (`u8`), a number (`f64`) or a text (`str`).
fn wrap(alloc: Global, data: &mut Context, step: &JsonValue) -> Answer {
    if let Some(number) = number_at(step, "u8") {
        return wrap_u8(alloc, data, u8::try_from(number).ok());
    }
    match step.get("f64").and_then(JsonValue::as_f64) {
        Some(number) => set_wrapped(alloc, data, Context::wraps(alloc, &number)),
        None => set_wrapped(alloc, data, Context::wraps(alloc, &text(step, "str"))),
    }
}

fn wrap_u8(alloc: Global, data: &mut Context, number: Option<u8>) -> Answer {
    match number {
        Some(number) => set_wrapped(alloc, data, Context::wraps(alloc, &number)),
        None => Err(Stop::Field),
    }
}

// If wrapping fails, the data are unchanged.
fn set_wrapped(alloc: Global, data: &mut Context, wrapped: Result<Context, RenderError>) -> Answer {
    match wrapped {
        Ok(wrapped) => {
            *data = wrapped;
            done(alloc)
        }
        Err(error) => failed::<()>(alloc, Err(error)),
    }
}

// Sets the data of the copy.
fn set_copy(alloc: Global, copy: &mut Context, given: Result<JsonValue, AllocError>) -> Answer {
    match given {
        Ok(given) => set(alloc, copy.set_data(given)),
        Err(AllocError) => Err(Stop::OutOfMemory),
    }
}

fn set(alloc: Global, answer: Result<(), RenderError>) -> Answer {
    match answer {
        Ok(()) => done(alloc),
        Err(error) => failed::<()>(alloc, Err(error)),
    }
}

// ---- values alone

fn of_value(alloc: Global, call: &str, step: &JsonValue) -> Answer {
    match call {
        "wrap_nested" => wrap_nested(alloc, nested(alloc, step)),
        "convert_nested" => convert_nested(alloc, nested(alloc, step)),
        "convert_samples" => convert_samples(alloc),
        "convert" => convert(alloc, step),
        "text_of" => text_of(alloc, step),
        _ => Err(Stop::Call),
    }
}

// Nested arrays around null.
fn nested(alloc: Global, step: &JsonValue) -> Result<JsonValue, Stop> {
    let mut nested = JsonValue::Null;
    let made = nest_all(alloc, &mut nested, number(step, "depth"));
    if_made(nested, made)
}

fn nest_all(alloc: Global, value: &mut JsonValue, depth: u64) -> Result<(), Stop> {
    for _ in 0..depth {
        nest(alloc, value)?;
    }
    Ok(())
}

fn nest(alloc: Global, value: &mut JsonValue) -> Result<(), Stop> {
    let inner = std::mem::replace(value, JsonValue::Null);
    put(value, had(around(alloc, inner)))
}

fn around(alloc: Global, inner: JsonValue) -> Result<JsonValue, AllocError> {
    Ok(JsonValue::Array(vec![in alloc; inner]?))
}

// Whether the data of wrapped arrays are equal to these, or whether the reason is an error of serde.
fn wrap_nested(alloc: Global, nested: Result<JsonValue, Stop>) -> Answer {
    match nested {
        Ok(nested) => is_wrapped(alloc, Context::wraps(alloc, &nested), &nested),
        Err(stop) => Err(stop),
    }
}

fn is_wrapped(alloc: Global, data: Result<Context, RenderError>, nested: &JsonValue) -> Answer {
    match data {
        Ok(data) => shown(alloc, data.data() == nested),
        Err(error) => is_of_serde(alloc, &error),
    }
}

fn is_of_serde(alloc: Global, error: &RenderError) -> Answer {
    match error.reason() {
        RenderErrorReason::SerdeError(_) => shown(alloc, "SerdeError"),
        _ => shown(alloc, "another error"),
    }
}

fn convert_nested(alloc: Global, nested: Result<JsonValue, Stop>) -> Answer {
    match nested {
        Ok(nested) => json_of(alloc, to_json(alloc, &nested)),
        Err(stop) => Err(stop),
    }
}

fn json_of(alloc: Global, value: Result<JsonValue, AllocError>) -> Answer {
    match value {
        Ok(value) => text_answer(value.to_string(alloc)),
        Err(AllocError) => Err(Stop::OutOfMemory),
    }
}

// Values that JSON can't describe: an array with `None` in it, the first number outside `i64`, and a negative one.
fn convert_samples(alloc: Global) -> Answer {
    json_of(
        alloc,
        to_json(alloc, &([Some(1u8), None], 1u64 << 63, -1i8)),
    )
}

// Whether a value is converted to itself.
fn convert(alloc: Global, step: &JsonValue) -> Answer {
    match step.get("value") {
        Some(given) => is(alloc, to_json(alloc, given), given),
        None => Err(Stop::Field),
    }
}

fn is(alloc: Global, value: Result<JsonValue, AllocError>, given: &JsonValue) -> Answer {
    match value {
        Ok(value) => shown(alloc, value == *given),
        Err(AllocError) => Err(Stop::OutOfMemory),
    }
}

// The text of a converted text, or of converted bytes.
fn text_of(alloc: Global, step: &JsonValue) -> Answer {
    match step.get("bytes") {
        Some(_) => text_of_bytes(alloc, bytes_of(alloc, items(step, "bytes"))),
        None => text_in(alloc, &text(step, "str")),
    }
}

fn text_of_bytes(alloc: Global, bytes: Result<Vec<u8>, Stop>) -> Answer {
    match bytes {
        Ok(bytes) => text_in(alloc, &bytes),
        Err(stop) => Err(stop),
    }
}

fn text_in<T: Serialize>(alloc: Global, source: &T) -> Answer {
    match to_json(alloc, source) {
        Ok(value) => shown(alloc, as_string(&value)),
        Err(AllocError) => Err(Stop::OutOfMemory),
    }
}
