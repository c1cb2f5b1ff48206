//! Test cases that ask one call.

use crate::call::{is_text_call, is_value_call};
use crate::check::{check_shape, reject, wrong_if};
use crate::failure::TestCaseFailure;
use crate::fields::Fields;
use crate::shape::Shape;
use serde_json::{Map, Value as JsonValue};
use std::alloc::Global;

/// Rejects fields that may not occur together, and an argument that the call doesn't take.
pub fn check_call(
    alloc: Global,
    members: &mut Map<String, JsonValue>,
) -> Result<(), TestCaseFailure> {
    if asked_of_text(alloc, Fields(members))? {
        check_text(alloc, members)?;
    }
    reject(wrong_answer(Fields(members)))
}

// Whether the call takes a text.
fn asked_of_text(alloc: Global, fields: Fields<'_>) -> Result<bool, TestCaseFailure> {
    let call = fields.text("call").unwrap_or("");
    if !fields.has("of") {
        return Err(TestCaseFailure::Fields("what is asked of is missing"));
    }
    if is_text_call(call) {
        return Ok(true);
    }
    match is_value_call(call) {
        true => Ok(false),
        false => Err(TestCaseFailure::of_field(alloc, call, "is no call")),
    }
}

fn check_text(alloc: Global, members: &mut Map<String, JsonValue>) -> Result<(), TestCaseFailure> {
    match members.get_mut("of") {
        Some(value) => check_shape(alloc, "of", value, Shape::Text, "is no text"),
        None => Ok(()),
    }
}

fn wrong_answer(fields: Fields<'_>) -> Option<&'static str> {
    wrong_if(
        fields.has("gives") == fields.has("printed"),
        "either what is given or what is printed is wanted",
    )
}
