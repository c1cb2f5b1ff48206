//! The values that fields may have.

use crate::fault::Fault;
use crate::fields::is_true;
use crate::file_answer::FileAnswer;
use crate::helpers::helper_named;
use crate::pen::Taking;
use crate::piece::Kind;
use crate::rendering::{Escape, Over};
use serde_json::{Map, Value as JsonValue};

/// The values that a field may have.
#[derive(Clone, Copy)]
pub enum Shape {
    Any,
    /// A text, or a long text.
    Text,
    /// A text that is JSON.
    Json,
    /// A text, a long text, or null.
    TextOrNull,
    Boolean,
    True,
    Number,
    Limit,
    Escape,
    Over,
    Fault,
    Writer,
    PieceKind,
    /// An array whose elements have this shape.
    List(Element),
    /// An object whose members have this shape.
    Members(Element),
}

/// The values that an element or a member may have.
#[derive(Clone, Copy)]
pub enum Element {
    Any,
    Text,
    Number,
    /// A level and a text.
    Line,
    /// The name of a helper, or null.
    Helper,
    /// The answer for a path.
    FileAnswer,
}

impl Shape {
    /// Returns whether a long text is allowed.
    pub fn is_text(self) -> bool {
        match self {
            Shape::Text | Shape::Json | Shape::TextOrNull => true,
            _ => false,
        }
    }

    /// Returns what is wrong with the value, or none if it has this shape. If an array or an object is wanted and the value
    /// isn't one, that is returned instead of `what`.
    pub fn rejects(self, value: &JsonValue, what: &'static str) -> Option<&'static str> {
        match self {
            Shape::List(element) => element.rejects_list(value, what),
            Shape::Members(element) => element.rejects_members(value, what),
            _ => unless(self.is(value), what),
        }
    }

    fn is(self, value: &JsonValue) -> bool {
        match self {
            Shape::Text | Shape::Json => value.is_string(),
            Shape::TextOrNull => value.is_string() || value.is_null(),
            Shape::Boolean => value.is_boolean(),
            Shape::True => is_true(value),
            Shape::Number => value.is_u64(),
            Shape::Limit => limit(value).is_some(),
            Shape::Escape => Escape::read(value).is_some(),
            Shape::Over => Over::read(value).is_some(),
            Shape::Fault => Fault::read(value).is_some(),
            Shape::Writer => Taking::read(value).is_some(),
            Shape::PieceKind => Kind::read(value).is_some(),
            _ => true,
        }
    }
}

fn unless(holds: bool, what: &'static str) -> Option<&'static str> {
    match holds {
        true => None,
        false => Some(what),
    }
}

impl Element {
    fn rejects_list(self, value: &JsonValue, what: &'static str) -> Option<&'static str> {
        match value.as_array() {
            Some(values) => unless(self.are(values.as_slice()), what),
            None => Some("is no array"),
        }
    }

    fn rejects_members(self, value: &JsonValue, what: &'static str) -> Option<&'static str> {
        match value.as_object() {
            Some(members) => unless(self.are_in(members), what),
            None => Some("is no object"),
        }
    }

    fn are(self, values: &[JsonValue]) -> bool {
        for value in values {
            if !self.is(value) {
                return false;
            }
        }
        true
    }

    fn are_in(self, members: &Map<String, JsonValue>) -> bool {
        for (_name, value) in members.iter() {
            if !self.is(value) {
                return false;
            }
        }
        true
    }

    fn is(self, value: &JsonValue) -> bool {
        match self {
            Element::Any => true,
            Element::Text => value.is_string(),
            Element::Number => value.is_u64(),
            Element::Line => line(value).is_some(),
            Element::Helper => value.is_null() || helper_named(value).is_some(),
            Element::FileAnswer => FileAnswer::of(value).is_some(),
        }
    }
}

/// Returns the level and the text of a line.
pub fn line(value: &JsonValue) -> Option<(&str, &str)> {
    match value.as_array()?.as_slice() {
        [level, text] => Some((level.as_str()?, text.as_str()?)),
        _ => None,
    }
}

/// Returns a limit, which is a number from 0 to 65535.
pub fn limit(value: &JsonValue) -> Option<u16> {
    u16::try_from(value.as_u64()?).ok()
}
