//! Long texts: arrays of texts, each with how often it is repeated.

use serde_json::Value as JsonValue;
use std::alloc::{AllocError, Global};

/// Replaces an array of texts by the joined text. Leaves another array unchanged.
pub fn join(alloc: Global, value: &mut JsonValue) -> Result<(), AllocError> {
    let joined = match value.as_array() {
        Some(texts) => joined(alloc, texts.as_slice())?,
        None => None,
    };
    if let Some(text) = joined {
        *value = JsonValue::String(text);
    }
    Ok(())
}

// The joined text, if all elements are texts that may occur in such an array.
fn joined(alloc: Global, texts: &[JsonValue]) -> Result<Option<String>, AllocError> {
    let mut all = String::new(alloc);
    for value in texts {
        match repeated(value) {
            Some((text, times)) => push_times(&mut all, text, times)?,
            None => return Ok(None),
        }
    }
    Ok(Some(all))
}

// A text, and how often it is repeated: once, or as often as the number after it says.
fn repeated(value: &JsonValue) -> Option<(&str, u64)> {
    match value {
        JsonValue::String(text) => Some((text.as_str(), 1)),
        JsonValue::Array(pair) => match pair.as_slice() {
            [text, times] => Some((text.as_str()?, times.as_u64()?)),
            _ => None,
        },
        _ => None,
    }
}

fn push_times(all: &mut String, text: &str, times: u64) -> Result<(), AllocError> {
    for _ in 0..times {
        all.push_str(text)?;
    }
    Ok(())
}
