//! The fields of an object.

use serde_json::{Map, Value as JsonValue};

/// The fields of a test case, of a step or of a piece.
#[derive(Clone, Copy)]
pub struct Fields<'r>(pub &'r Map<String, JsonValue>);

impl<'r> Fields<'r> {
    /// Returns whether there is a field of this name.
    pub fn has(self, name: &str) -> bool {
        self.0.contains_key(name)
    }

    /// Returns whether there is a field of one of these names, which are separated by spaces.
    pub fn has_any(self, names: &str) -> bool {
        for name in names.split(' ') {
            if self.has(name) {
                return true;
            }
        }
        false
    }

    /// Returns the value of this field.
    pub fn get(self, name: &str) -> Option<&'r JsonValue> {
        self.0.get(name)
    }

    /// Returns the text of this field, if it is a text.
    pub fn text(self, name: &str) -> Option<&'r str> {
        self.get(name)?.as_str()
    }

    /// Returns the number of this field, if it is an unsigned integer.
    pub fn number(self, name: &str) -> Option<usize> {
        match self.get(name)?.as_u64() {
            Some(number) => Some(number as usize),
            None => None,
        }
    }

    /// Returns whether this field is true.
    pub fn is_set(self, name: &str) -> bool {
        match self.get(name) {
            Some(value) => is_true(value),
            None => false,
        }
    }

    /// Returns the members of this field, if it is an object.
    pub fn members(self, name: &str) -> Option<&'r Map<String, JsonValue>> {
        self.get(name)?.as_object()
    }

    /// Returns the elements of this field, if it is an array.
    pub fn elements(self, name: &str) -> Option<&'r [JsonValue]> {
        match self.get(name)?.as_array() {
            Some(values) => Some(values.as_slice()),
            None => None,
        }
    }
}

/// Returns whether a value is `true`.
pub fn is_true(value: &JsonValue) -> bool {
    value.as_bool() == Some(true)
}
