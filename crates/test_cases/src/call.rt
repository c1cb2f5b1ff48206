//! Test cases that ask one call.

use crate::fields::Fields;
use crate::names::is_among;
use crate::reply::Reply;
use serde_json::Value as JsonValue;
use std::fmt;

/// A call, and what it is expected to answer.
#[derive(Clone, Copy)]
pub struct Call<'r> {
    /// The name of the call.
    pub call: &'r str,
    /// What the call is applied to. It is a text if the call takes one.
    pub of: &'r JsonValue,
    /// The name that the call takes.
    pub name: &'r str,
    /// The data that paths lead into. Null if there are none.
    pub data: Option<&'r JsonValue>,
    pub expected: Reply<'r>,
}

const TEXT_CALLS: &str =
    "Path::parse split_path read_front split_literal literal_value split_line(Tag) split_line(Block) \
    split_line(Parentheses) split_line(Close) split_binding Parameter::parse Template::compile \
    Template::compile_with_name Template::compile2 escape_html html_escape no_escape resolve evaluate expand \
    expand_as_name";

/// Returns whether the call of this name takes a text.
pub fn is_text_call(name: &str) -> bool {
    is_among(name, TEXT_CALLS)
}

/// Returns whether the call of this name takes a value, or two of them.
pub fn is_value_call(name: &str) -> bool {
    is_among(name, "render equal compare")
}

impl<'r> Call<'r> {
    /// Returns the test case of these fields, if it asks a call. The fields must have been checked.
    pub fn of(fields: Fields<'r>) -> Option<Call<'r>> {
        Some(Call {
            call: fields.text("call")?,
            of: fields.get("of")?,
            name: fields.text("name").unwrap_or(""),
            data: fields.get("data"),
            expected: expected(fields),
        })
    }
}

fn expected(fields: Fields<'_>) -> Reply<'_> {
    match fields.text("gives") {
        Some(text) => Reply::Gives(text),
        None => Reply::Prints(fields.text("printed").unwrap_or("")),
    }
}

// What the call is applied to is printed as a text of Rust, if it is a text.
impl fmt::Display for Call<'_> {
    fn fmt<W: fmt::Write>(&self, f: &mut fmt::Formatter<W>) -> fmt::Result {
        let (call, of) = (self.call, self.of);
        match is_value_call(call) {
            true => write!(f, "{call} of {of:?}"),
            false => write!(f, "{call} of {:?}", of.as_str().unwrap_or("")),
        }
    }
}
