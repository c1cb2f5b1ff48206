//! What a path leads to. Neither its full path nor the JSON of a variable is made.

use crate::layer::Descent;
pub use crate::reached::Reached;
use crate::scopes::Scopes;
use handlebars_base::json::value::Json;

/// What a path leads to.
#[derive(Clone, Copy)]
pub enum Destination<'r, 'a> {
    /// A value of the data.
    Node(&'a Json),
    /// A value of a frame, which has no path.
    Value(FrameValue<'r>),
    /// No value.
    Nothing,
    /// This name isn't an index, and it was looked up in an array.
    NoIndex(&'r str),
}

/// Where a value of the data is: the names that lead to it from a frame.
#[derive(Clone, Copy)]
pub struct Route<'r, 'a> {
    pub start: Scopes<'r, 'a>,
    pub descent: Descent<'r>,
}

/// A value that a frame has: JSON, or a variable of an iteration, of which there is no JSON. No variant has a field of less than a
/// word, so that a value is copied word by word.
#[derive(Clone, Copy)]
pub enum FrameValue<'r> {
    Json(&'r Json),
    Index(usize),
    True,
    False,
    Key(&'r str),
}

/// What a path leads to in other data than those of the frames. There the value has no route.
#[derive(Drop)]
pub enum FoundInData<'s, 'd> {
    /// A value of the data.
    Data(&'d Json),
    /// A value of a frame.
    Frame(FrameValue<'s>),
    /// No value.
    Nothing,
    /// This name isn't an index, and it was looked up in an array.
    NoIndex(String),
}

/// What a frame binds a name to: a path below its own base path, or a value.
#[derive(Clone, Copy)]
pub enum Bound<'r> {
    Path(&'r [String]),
    Value(FrameValue<'r>),
}
