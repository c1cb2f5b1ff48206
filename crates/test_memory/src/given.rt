//! Data and values for cases.

use crate::outcome::Stop;
use handlebars::{Context, JsonValue};
use std::alloc::Global;

/// Returns the data of a JSON text.
pub fn data_of(alloc: Global, text: &str) -> Result<Context, Stop> {
    Ok(Context::try_from(value_of(alloc, text)?)?)
}

/// Returns the value of a JSON text.
pub fn value_of(alloc: Global, text: &str) -> Result<JsonValue, Stop> {
    match JsonValue::from_str(alloc, text) {
        Ok(value) => Ok(value),
        Err(cause) => match cause.is_memory() {
            true => Err(Stop::Memory),
            false => Err(Stop::Broken),
        },
    }
}
