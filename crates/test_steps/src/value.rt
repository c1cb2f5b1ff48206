//! Values with their origins.

use crate::answer::{Answer, Stop, said, shown, text_answer};
use crate::fields::flag;
use crate::held::had;
use crate::made::scoped::{given_of, scoped_of};
use crate::made::view::helper_of;
use handlebars_base::error::RenderError;
use handlebars_base::json::value::{JsonRender, PathAndJson, ScopedJson};
use handlebars_helpers::log_line::log_record;
use handlebars_helpers::view::Helper;
use serde_json::Value as JsonValue;
use std::alloc::Global;
use std::fmt::Debug;

/// Returns what a call answers.
pub fn answer(alloc: Global, call: &str, step: &JsonValue) -> Answer {
    match call {
        "render" => rendered(alloc, scoped(alloc, step)),
        "found" => found(alloc, scoped(alloc, step)),
        "given" => given(alloc, given_of(alloc, step)),
        "relative_path" => relative_path(alloc, given_of(alloc, step)),
        "log_record" => record(alloc, helper_of(alloc, step)),
        _ => Err(Stop::Call),
    }
}

// A value, or the value derived from it.
fn scoped<'s>(alloc: Global, step: &'s JsonValue) -> Result<ScopedJson<'s>, Stop> {
    match flag(step, "into_derived") {
        true => derived(alloc, scoped_of(alloc, step)),
        false => scoped_of(alloc, step),
    }
}

fn derived<'s>(alloc: Global, value: Result<ScopedJson<'s>, Stop>) -> Result<ScopedJson<'s>, Stop> {
    match value {
        Ok(value) => had(value.into_derived(alloc)),
        Err(stop) => Err(stop),
    }
}

fn rendered(alloc: Global, value: Result<ScopedJson<'_>, Stop>) -> Answer {
    match value {
        Ok(value) => text_answer(value.render(alloc)),
        Err(stop) => Err(stop),
    }
}

// The path of the value in the data, the value, and whether it is missing.
fn found(alloc: Global, value: Result<ScopedJson<'_>, Stop>) -> Answer {
    match value {
        Ok(value) => shown(
            alloc,
            (value.context_path(), value.as_json(), value.is_missing()),
        ),
        Err(stop) => Err(stop),
    }
}

fn relative_path(alloc: Global, given: Result<PathAndJson<'_>, Stop>) -> Answer {
    match given {
        Ok(given) => shown(alloc, given.relative_path()),
        Err(stop) => Err(stop),
    }
}

fn given(alloc: Global, given: Result<PathAndJson<'_>, Stop>) -> Answer {
    match given {
        Ok(given) => described(alloc, &given),
        Err(stop) => Err(stop),
    }
}

// The path as written, the full path, the constant, whether it is missing, the value, and its text, twice.
fn described(alloc: Global, given: &PathAndJson<'_>) -> Answer {
    let value = given.value();
    let paths = (given.relative_path(), given.context_path());
    match (value.render(alloc), given.render(alloc)) {
        (Ok(own), Ok(text)) => shown(
            alloc,
            (
                paths,
                given.try_get_constant_value(),
                given.is_value_missing(),
                value,
                own,
                text,
            ),
        ),
        _ => Err(Stop::OutOfMemory),
    }
}

// The level and the line of a call of `log`, or its error.
fn record(alloc: Global, call: Result<Helper<'_>, Stop>) -> Answer {
    match call {
        Ok(call) => either(alloc, log_record(alloc, &call)),
        Err(stop) => Err(stop),
    }
}

fn either<T: Debug + Drop, E: Debug + Drop>(alloc: Global, answer: Result<T, E>) -> Answer {
    match answer {
        Ok(value) => shown(alloc, value),
        Err(error) => shown(alloc, error),
    }
}

/// Prints an expanded parameter: its path as written and in the data, its value, the constant, and whether it is missing; or
/// the parts of the error.
pub fn expanded(alloc: Global, answer: Result<PathAndJson<'_>, RenderError>) -> Answer {
    match answer {
        Ok(given) => described_parameter(alloc, &given),
        Err(error) => said(alloc, &error),
    }
}

fn described_parameter(alloc: Global, given: &PathAndJson<'_>) -> Answer {
    let paths = (given.relative_path(), given.context_path());
    let constant = given.try_get_constant_value();
    shown(
        alloc,
        (paths, given.value(), constant, given.is_value_missing()),
    )
}
