//! The names of the built-in helpers.

use handlebars_helpers::built_in::{BuiltIn, table};
use serde_json::Value as JsonValue;

/// Returns the built-in helper that a text names.
pub fn helper_named(value: &JsonValue) -> Option<BuiltIn> {
    let text = value.as_str()?;
    for (name, kind) in table() {
        if name == text {
            return Some(kind);
        }
    }
    None
}
