//! Data, copies of values, and bytes.

use crate::answer::Stop;
use crate::fields::copied;
use crate::held::{had, if_made, push, taken};
use handlebars_scope::context::Context;
use serde_json::Value as JsonValue;
use std::alloc::{AllocError, Global};

/// Returns the context of a field.
pub fn context_of(it: &JsonValue, name: &str) -> Result<Context, Stop> {
    match copied(it, name) {
        Ok(given) => taken(Context::try_from(given)),
        Err(AllocError) => Err(Stop::OutOfMemory),
    }
}

/// Returns copies of the values of an array.
pub fn copies(alloc: Global, values: &[JsonValue]) -> Result<Vec<JsonValue>, Stop> {
    let mut all = Vec::new(alloc);
    let made = push_copies(&mut all, values);
    if_made(all, made)
}

fn push_copies(all: &mut Vec<JsonValue>, values: &[JsonValue]) -> Result<(), Stop> {
    for value in values {
        push(all, had(value.clone()))?;
    }
    Ok(())
}

/// Returns the bytes of an array.
pub fn bytes_of(alloc: Global, numbers: &[JsonValue]) -> Result<Vec<u8>, Stop> {
    let mut bytes = Vec::new(alloc);
    let made = push_bytes(&mut bytes, numbers);
    if_made(bytes, made)
}

fn push_bytes(bytes: &mut Vec<u8>, numbers: &[JsonValue]) -> Result<(), Stop> {
    for number in numbers {
        push(bytes, byte_of(number))?;
    }
    Ok(())
}

fn byte_of(number: &JsonValue) -> Result<u8, Stop> {
    match number.as_u64() {
        Some(byte) if byte < 256 => Ok(byte as u8),
        _ => Err(Stop::Field),
    }
}
