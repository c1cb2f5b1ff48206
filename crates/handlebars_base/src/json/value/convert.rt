//! Conversion of other values to JSON.

ghost use Rattle.std.specs.Prelude.{◌≡◌, IfOk};
ghost use Rattle.serde_json.specs.Data.{null};
ghost use Rattle.serde_json.specs.Errors.{IsMemory};
ghost use Rattle.serde_json.specs.View.{view};
ghost use Rattle.handlebars_base.specs.Written.{IsConverted};

use crate::json::value::Json;
use serde::Serialize;
use std::alloc::{AllocError, Global};

/// Converts `src` to a JSON value: the one that is read from the text that serde_json writes for `src`.
///
/// Returns null if serde_json doesn't write `src`, of which nothing more is specified, or doesn't read the text, for
/// example because it nests deeper than 127 levels.
///
/// # Errors
///
/// Fails if memory runs out.
pub fn to_json<T: Serialize>(alloc: Global, src: &T) -> Result<Json, AllocError>
    ensures { IfOk result (λ v. IsConverted T.writes src.now (view v)) }
{
    let text = match serde_json::to_string(alloc, src) {
        Ok(text) => text,
        Err(cause) => return null_unless_memory(cause),
    };
    match Json::from_str(alloc, text.as_str()) {
        Ok(value) => Ok(value),
        Err(cause) => null_unless_memory(cause),
    }
}

// Returns null, unless the cause is out of memory, which stays an error.
fn null_unless_memory(cause: serde_json::Error) -> Result<Json, AllocError>
    ensures value { IfOk result (λ v. view v ≡ null) }
    ensures memory { IfOk result (λ _. ¬ (IsMemory cause)) }
{
    if cause.is_memory() {
        Err(AllocError)
    } else {
        Ok(Json::Null)
    }
}
