//! The fields of a step, and of the values that it describes. A field that is missing, or has another type, reads as empty.

use serde_json::Value as JsonValue;
use std::alloc::{AllocError, Global};

/// Returns a field that is a text, if it is one.
pub fn text_at<'s>(it: &'s JsonValue, name: &str) -> Option<&'s str> {
    it.get(name).and_then(JsonValue::as_str)
}

/// Returns a field that is a text, or the empty text.
pub fn text<'s>(it: &'s JsonValue, name: &str) -> &'s str {
    text_at(it, name).unwrap_or("")
}

/// Returns a field that is an unsigned integer, if it is one.
pub fn number_at(it: &JsonValue, name: &str) -> Option<u64> {
    it.get(name).and_then(JsonValue::as_u64)
}

/// Returns a field that is an unsigned integer, or 0.
pub fn number(it: &JsonValue, name: &str) -> u64 {
    number_at(it, name).unwrap_or(0)
}

/// Returns whether a field is true.
pub fn flag(it: &JsonValue, name: &str) -> bool {
    it.get(name).and_then(JsonValue::as_bool).unwrap_or(false)
}

/// Returns the items of a field that is an array. Empty if it is none.
pub fn items<'s>(it: &'s JsonValue, name: &str) -> &'s [JsonValue] {
    match it.get(name).and_then(JsonValue::as_array) {
        Some(items) => items.as_slice(),
        None => &[],
    }
}

/// Returns a copy of a field, or null.
pub fn copied(it: &JsonValue, name: &str) -> Result<JsonValue, AllocError> {
    match it.get(name) {
        Some(value) => value.clone(),
        None => Ok(JsonValue::Null),
    }
}

/// Returns a copy of the text of a field.
pub fn owned(alloc: Global, it: &JsonValue, name: &str) -> Result<String, AllocError> {
    String::from_str(alloc, text(it, name))
}

/// Returns copies of the texts of an array.
pub fn owned_all(alloc: Global, texts: &[JsonValue]) -> Result<Vec<String>, AllocError> {
    let mut all = Vec::new(alloc);
    match push_all(alloc, &mut all, texts) {
        Ok(()) => Ok(all),
        Err(AllocError) => Err(AllocError),
    }
}

fn push_all(alloc: Global, all: &mut Vec<String>, texts: &[JsonValue]) -> Result<(), AllocError> {
    for text in texts {
        push_text(alloc, all, text.as_str().unwrap_or(""))?;
    }
    Ok(())
}

fn push_text(alloc: Global, all: &mut Vec<String>, text: &str) -> Result<(), AllocError> {
    Ok(all.push(String::from_str(alloc, text)?)?)
}

/// Returns the text of a field: a text, or the joined texts of an array.
pub fn joined(alloc: Global, it: &JsonValue, name: &str) -> Result<String, AllocError> {
    match text_at(it, name) {
        Some(text) => String::from_str(alloc, text),
        None => joined_all(alloc, items(it, name)),
    }
}

fn joined_all(alloc: Global, texts: &[JsonValue]) -> Result<String, AllocError> {
    let mut all = String::new(alloc);
    for text in texts {
        all.push_str(text.as_str().unwrap_or(""))?;
    }
    Ok(all)
}
