//! What the files and folders of a test case answer.

use crate::fault::Fault;
use serde_json::{Map, Value as JsonValue};

/// The answer for a path.
#[derive(Clone, Copy)]
pub enum FileAnswer<'k> {
    /// The text of a file.
    Text(&'k str),
    /// The entries of a folder in the order of the listing, each a text. The name of a folder ends in `/`.
    Entries(&'k [JsonValue]),
    /// An error, returned for a read and for a listing.
    Fault(Fault),
}

impl FileAnswer<'_> {
    /// Returns the answer that a member of `files` describes. Null means that nothing is at the path.
    pub fn of(value: &JsonValue) -> Option<FileAnswer<'_>> {
        match value {
            JsonValue::Null => Some(FileAnswer::Fault(Fault::NOT_FOUND)),
            JsonValue::String(text) => Some(FileAnswer::Text(text.as_str())),
            JsonValue::Array(entries) => entries_of(entries.as_slice()),
            JsonValue::Object(members) => fault_of(members),
            _ => None,
        }
    }
}

fn entries_of(entries: &[JsonValue]) -> Option<FileAnswer<'_>> {
    for entry in entries {
        if !entry.is_string() {
            return None;
        }
    }
    Some(FileAnswer::Entries(entries))
}

fn fault_of(members: &Map<String, JsonValue>) -> Option<FileAnswer<'_>> {
    if members.len() != 1 {
        return None;
    }
    Some(FileAnswer::Fault(Fault::read(members.get("fault")?)?))
}
