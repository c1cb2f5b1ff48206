//! Whether a value is a test case. The checks also replace a text of JSON by its value, and an array of texts by the joined
//! text.

mod call;
mod part;
mod rendering;

use crate::check::call::check_call;
use crate::check::part::check_parts;
use crate::check::rendering::wrong_rendering;
use crate::failure::TestCaseFailure;
use crate::fields::Fields;
use crate::format::{CALL, Format, RENDERING};
use crate::long_text::join;
use crate::shape::Shape;
use serde_json::{Map, Value as JsonValue};
use std::alloc::Global;

/// Rejects a value that is not a test case. An object that has a `call` asks a call.
pub fn check_test_case(alloc: Global, value: &mut JsonValue) -> Result<(), TestCaseFailure> {
    let Some(members) = value.as_object_mut() else {
        return Err(TestCaseFailure::Fields("no object"));
    };
    if members.contains_key("call") {
        check_members(alloc, members, &CALL)?;
        return check_call(alloc, members);
    }
    check_members(alloc, members, &RENDERING)?;
    reject(wrong_rendering(Fields(members)))
}

fn check_members(
    alloc: Global,
    members: &mut Map<String, JsonValue>,
    format: &Format,
) -> Result<(), TestCaseFailure> {
    let (data, other) = (members.contains_key("data"), members.contains_key("other"));
    for (name, value) in members.iter_mut() {
        let name = name.as_str();
        check_value(alloc, name, value, format)?;
        check_parts(alloc, name, value)?;
        reject(second_data(name, data, other))?;
    }
    Ok(())
}

// What is wrong if both the field of this name and another one give the data.
fn second_data(name: &str, data: bool, other: bool) -> Option<&'static str> {
    match name {
        "json" => wrong_if(data, "both data and json"),
        "other_json" => wrong_if(other, "both other and other_json"),
        _ => None,
    }
}

// Rejects a field that the object may not have, or whose value is wrong.
fn check_value(
    alloc: Global,
    name: &str,
    value: &mut JsonValue,
    format: &Format,
) -> Result<(), TestCaseFailure> {
    match format.find(name) {
        Some((shape, what)) => check_shape(alloc, name, value, shape, what),
        None => Err(TestCaseFailure::of_field(alloc, name, format.unknown)),
    }
}

fn check_shape(
    alloc: Global,
    name: &str,
    value: &mut JsonValue,
    shape: Shape,
    what: &'static str,
) -> Result<(), TestCaseFailure> {
    if shape.is_text() {
        join(alloc, value)?;
    }
    if let Some(what) = shape.rejects(value, what) {
        return Err(TestCaseFailure::of_field(alloc, name, what));
    }
    match shape {
        Shape::Json => read_json(alloc, name, value),
        _ => Ok(()),
    }
}

fn read_json(alloc: Global, name: &str, value: &mut JsonValue) -> Result<(), TestCaseFailure> {
    match JsonValue::from_str(alloc, value.as_str().unwrap_or("")) {
        Ok(read) => {
            *value = read;
            Ok(())
        }
        Err(_) => Err(TestCaseFailure::of_field(alloc, name, "is no text in JSON")),
    }
}

// Fails if something is wrong with the fields.
fn reject(wrong: Option<&'static str>) -> Result<(), TestCaseFailure> {
    match wrong {
        Some(what) => Err(TestCaseFailure::Fields(what)),
        None => Ok(()),
    }
}

// What is wrong, if something is.
fn wrong_if(holds: bool, what: &'static str) -> Option<&'static str> {
    match holds {
        true => Some(what),
        false => None,
    }
}
