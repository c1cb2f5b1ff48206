//! What the calls that test cases ask for answer. Those that expand a parameter create their own registry.

use crate::calls::context;
use crate::registered::Held;
use handlebars::template::Parameter;
use handlebars::{
    Context, Expand, JsonRender, JsonValue, PathAndJson, Registry, RenderContext, RenderError,
};
use log::sink::Discard;
use std::alloc::{AllocError, Global};
use test_cases::call::{Call, is_value_call};
use test_cases::reply::{OwnedReply, text_or_error};
use test_cases::value_call::value_reply;

/// Returns what the call of a test case answers.
pub fn reply(alloc: Global, test_case: &Call<'_>) -> Result<OwnedReply, AllocError> {
    let null = JsonValue::Null;
    match is_value_call(test_case.call) {
        true => value_reply(alloc, test_case.call, test_case.of),
        false => text_reply(alloc, test_case, test_case.data.unwrap_or(&null)),
    }
}

fn text_reply(
    alloc: Global,
    test_case: &Call<'_>,
    data: &JsonValue,
) -> Result<OwnedReply, AllocError> {
    let text = test_case.of.as_str().unwrap_or("");
    match test_case.call {
        "evaluate" => text_or_error(alloc, evaluated(alloc, data, text)),
        "expand" => text_or_error(alloc, expanded(alloc, data, text, false)),
        "expand_as_name" => text_or_error(alloc, expanded(alloc, data, text, true)),
        _ => test_case.part_reply(alloc, data, text),
    }
}

fn evaluated(alloc: Global, data: &JsonValue, path: &str) -> Result<String, RenderError> {
    let data = context(data)?;
    let rc = RenderContext::new(alloc, None)?;
    let found = rc.evaluate(&data, path)?;
    Ok(found.render(alloc)?)
}

fn expanded(
    alloc: Global,
    data: &JsonValue,
    text: &str,
    as_name: bool,
) -> Result<String, RenderError> {
    let parameter = Parameter::parse(alloc, text)?;
    let data = context(data)?;
    let held = Held::new(alloc)?;
    match as_name {
        true => expanded_as_name(alloc, &held.registry, &parameter, &data),
        false => expanded_as_value(alloc, &held.registry, &parameter, &data),
    }
}

fn expanded_as_value(
    alloc: Global,
    registry: &Registry,
    parameter: &Parameter,
    data: &Context,
) -> Result<String, RenderError> {
    let mut rc = RenderContext::new(alloc, None)?;
    let value = parameter.expand(alloc, registry, data, &mut rc, &Discard)?;
    Ok(position_of(alloc, &value)?)
}

fn expanded_as_name(
    alloc: Global,
    registry: &Registry,
    parameter: &Parameter,
    data: &Context,
) -> Result<String, RenderError> {
    let mut rc = RenderContext::new(alloc, None)?;
    let name = parameter.expand_as_name(alloc, registry, data, &mut rc, &Discard)?;
    Ok(String::from_str(alloc, name.as_str())?)
}

// A value with its origin: its path as written, its full path, the value itself, and whether it is missing or constant.
fn position_of(alloc: Global, value: &PathAndJson) -> Result<String, AllocError> {
    let written = value.relative_path();
    let full = value.context_path();
    let json = value.value().to_string(alloc)?;
    let missing = if value.is_value_missing() {
        ", missing"
    } else {
        ""
    };
    let constant = match value.try_get_constant_value() {
        Some(_) => ", constant",
        None => "",
    };
    format!(in alloc; "{written:?}, {full:?}, {json}{missing}{constant}")
}
