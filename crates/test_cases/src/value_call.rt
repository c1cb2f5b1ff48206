//! Calls that take values.

use crate::reply::{OwnedReply, shown};
use handlebars_base::json::value::{JsonRender, compare, equal};
use serde_json::Value as JsonValue;
use std::alloc::{AllocError, Global};

/// Returns what the call of this name answers for a value, or for an array of two values.
pub fn value_reply(alloc: Global, call: &str, value: &JsonValue) -> Result<OwnedReply, AllocError> {
    if call == "render" {
        return Ok(OwnedReply::Gives(value.render(alloc)?));
    }
    match pair_of(value) {
        Some((x, y)) => pair_reply(alloc, call, x, y),
        None => Ok(OwnedReply::Prints(String::from_str(alloc, "no pair")?)),
    }
}

fn pair_of(value: &JsonValue) -> Option<(&JsonValue, &JsonValue)> {
    match value.as_array()?.as_slice() {
        [x, y] => Some((x, y)),
        _ => None,
    }
}

fn pair_reply(
    alloc: Global,
    call: &str,
    x: &JsonValue,
    y: &JsonValue,
) -> Result<OwnedReply, AllocError> {
    match call {
        "equal" => shown(alloc, &equal(x, y)),
        _ => shown(alloc, &compare(x, y)),
    }
}
