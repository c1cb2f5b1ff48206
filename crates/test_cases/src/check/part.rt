//! The steps and the pieces of test cases.

use crate::check::{check_value, reject};
use crate::failure::TestCaseFailure;
use crate::fields::Fields;
use crate::format::{Format, PIECE, STEP};
use crate::names::is_among;
use serde_json::{Map, Value as JsonValue};
use std::alloc::Global;

/// Rejects elements of the field of this name that are not steps, or not pieces, if that field is `steps` or `pieces`.
pub fn check_parts(
    alloc: Global,
    name: &str,
    value: &mut JsonValue,
) -> Result<(), TestCaseFailure> {
    match name {
        "steps" | "pieces" => check_each(alloc, name == "steps", value),
        _ => Ok(()),
    }
}

fn check_each(alloc: Global, is_step: bool, value: &mut JsonValue) -> Result<(), TestCaseFailure> {
    let Some(parts) = value.as_array_mut() else {
        return Ok(());
    };
    for part in parts.iter_mut() {
        check_part(alloc, is_step, part)?;
    }
    Ok(())
}

fn check_part(alloc: Global, is_step: bool, value: &mut JsonValue) -> Result<(), TestCaseFailure> {
    match value.as_object_mut() {
        Some(members) => match is_step {
            true => check_step(alloc, members),
            false => check_piece(alloc, members),
        },
        None => reject(Some(match is_step {
            true => "a step is no object",
            false => "a piece is no object",
        })),
    }
}

fn check_step(alloc: Global, members: &mut Map<String, JsonValue>) -> Result<(), TestCaseFailure> {
    let second = second_action(Fields(members));
    check_fields(alloc, members, &STEP, second)?;
    reject(wrong_step(Fields(members)))
}

fn check_piece(alloc: Global, members: &mut Map<String, JsonValue>) -> Result<(), TestCaseFailure> {
    check_fields(alloc, members, &PIECE, None)?;
    reject(wrong_piece(Fields(members)))
}

// Rejects fields that the part may not have, and the field at this index, which is a second action.
fn check_fields(
    alloc: Global,
    members: &mut Map<String, JsonValue>,
    format: &Format,
    second: Option<usize>,
) -> Result<(), TestCaseFailure> {
    for (index, (name, value)) in members.iter_mut().enumerate() {
        if second == Some(index) {
            return Err(TestCaseFailure::of_field(alloc, name.as_str(), "is a second action"));
        }
        check_value(alloc, name.as_str(), value, format)?;
    }
    Ok(())
}

// The index of the second field that says what is done, if there is one.
fn second_action(fields: Fields<'_>) -> Option<usize> {
    let mut has_action = false;
    for (index, (name, _value)) in fields.0.iter().enumerate() {
        if is_action(name.as_str()) {
            if has_action {
                return Some(index);
            }
            has_action = true;
        }
    }
    None
}

// Whether a field of a step says what is done, and not how, or what is expected.
fn is_action(name: &str) -> bool {
    !is_among(
        name,
        "extension hidden temporary reason line column template asked names",
    )
}

// What is wrong with the fields of a step together.
fn wrong_step(fields: Fields<'_>) -> Option<&'static str> {
    if !fields.has_any("register file folder unregister clear dev files") {
        return Some("a step does nothing");
    }
    if has_options(fields) && !fields.has("folder") {
        return Some("an extension, hidden or temporary at a step that is no folder");
    }
    if fields.has_any("line column template") && !fields.has("reason") {
        return Some("a line, a column or a template at a step without a reason");
    }
    None
}

fn has_options(fields: Fields<'_>) -> bool {
    fields.has("extension") || fields.is_set("hidden") || fields.is_set("temporary")
}

// What is wrong with the fields of a piece together.
fn wrong_piece(fields: Fields<'_>) -> Option<&'static str> {
    if !fields.has("text") {
        return Some("a piece has no text");
    }
    if !fields.has("kind") {
        return Some("a piece has no kind");
    }
    if fields.has("line") != fields.has("column") {
        return Some("a piece has a line or a column without the other");
    }
    None
}
