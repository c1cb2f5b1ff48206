//! Test cases that render a template.

ghost use Rattle.std.specs.Prelude.{◌≡◌};
ghost use Rattle.test_cases.specs.RenderCalls.{has_output, has_pieces, has_text, has_writer, is_meant, is_rendered_over};

use crate::expected::Expected;
use crate::fault::Fault;
use crate::fields::Fields;
use crate::pen::Taking;
use crate::piece::Piece;
use serde_json::{Map, Value as JsonValue};
use std::fmt;

/// What is rendered, by which calls, and what is expected of it.
#[derive(Clone, Copy)]
pub struct Rendering<'r> {
    /// All fields of the test case.
    pub fields: Fields<'r>,
    /// The files and folders that the reader has, by path.
    pub files: Option<&'r Map<String, JsonValue>>,
    /// The steps before the rendering.
    pub steps: Option<&'r [JsonValue]>,
    pub rendered: Rendered<'r>,
    /// The data of the rendering. Null if there are none.
    pub data: Option<&'r JsonValue>,
    /// What the calls render over. Both if there is none.
    pub over: Option<Over>,
    /// What the writer takes, if there is a writer.
    pub to: Option<Taking>,
    /// Whether it is also written to writers that fail, one for each write.
    pub sweep: bool,
    /// How many bytes the output takes. All if there is no bound.
    pub takes: Option<usize>,
    pub expected: Expected<'r>,
    /// The second run, over other data, if there is one.
    pub other: Option<Other<'r>>,
}

/// The data of the second run, and what is expected of it.
#[derive(Clone, Copy)]
pub struct Other<'r> {
    pub data: &'r JsonValue,
    pub expected: Expected<'r>,
}

/// How values are escaped.
#[derive(Clone, Copy)]
pub enum Escape {
    Html,
    Plain,
}

impl Escape {
    /// Returns the kind of escape that a text names.
    pub fn read(value: &JsonValue) -> Option<Escape> {
        match value.as_str()? {
            "html" => Some(Escape::Html),
            "plain" => Some(Escape::Plain),
            _ => None,
        }
    }
}

/// What a call renders over: a context, or data that it converts.
#[derive(Clone, Copy)]
pub enum Over {
    Context,
    Value,
}

impl Over {
    /// Returns the one that a text names.
    pub fn read(value: &JsonValue) -> Option<Over> {
        match value.as_str()? {
            "context" => Some(Over::Context),
            "value" => Some(Over::Value),
            _ => None,
        }
    }
}

/// What a test case renders.
#[derive(Clone, Copy)]
pub enum Rendered<'r> {
    Source(&'r str),
    /// The registered template of that name.
    Name(&'r str),
}

impl fmt::Display for Rendered<'_> {
    fn fmt<W: fmt::Write>(&self, f: &mut fmt::Formatter<W>) -> fmt::Result {
        match self {
            Rendered::Source(source) => write!(f, "{source:?}"),
            Rendered::Name(name) => write!(f, "template {name:?}"),
        }
    }
}

impl<'r> Rendering<'r> {
    /// Returns the test case of these fields, which must have been checked, with the pieces that they expect.
    pub fn of(fields: Fields<'r>, pieces: Option<&'r [Piece]>) -> Rendering<'r> {
        Rendering {
            fields,
            files: fields.members("files"),
            steps: fields.elements("steps"),
            rendered: rendered_of(fields),
            data: fields.get("data").or(fields.get("json")),
            over: over_of(fields),
            to: taking_of(fields),
            sweep: fields.is_set("sweep"),
            takes: fields.number("takes"),
            expected: Expected::of_first(fields, pieces),
            other: other_of(fields),
        }
    }

    /// Returns whether the calls that return a text are asked for.
    pub fn has_text(&self) -> bool
        ensures { result ≡ has_text self.now }
    {
        self.takes.is_none() && self.to.is_none()
    }

    /// Returns whether the calls that write are asked for.
    pub fn has_writer(&self) -> bool
        ensures { result ≡ has_writer self.now }
    {
        self.takes.is_none()
    }

    /// Returns whether calls over a context, or over data, are asked for.
    pub fn is_over(&self, over: Over) -> bool
        ensures { result ≡ is_rendered_over over self.now }
    {
        match (self.over, over) {
            (None, _) => true,
            (Some(Over::Context), Over::Context) => true,
            (Some(Over::Value), Over::Value) => true,
            _ => false,
        }
    }

    /// Returns whether the call that emits pieces is asked for. It renders over a context, and has no writer.
    pub fn has_pieces(&self) -> bool
        ensures { result ≡ has_pieces self.now }
    {
        self.has_text() && self.is_over(Over::Context)
    }

    /// Returns whether a template is rendered directly to an output. Such a rendering has neither files nor a writer.
    pub fn has_output(&self) -> bool
        ensures { result ≡ has_output self.now }
    {
        self.files.is_none()
            && (self.steps.is_none() && (self.to.is_none() && self.is_over(Over::Context)))
    }

    /// Returns the error of the output when it takes no more.
    pub fn fault(&self) -> Fault {
        match self.fields.get("fault") {
            Some(value) => Fault::read(value).unwrap_or(Fault::NOT_FOUND),
            None => Fault::NOT_FOUND,
        }
    }
}

// A test case with steps and no source has the empty source.
fn rendered_of(fields: Fields<'_>) -> Rendered<'_> {
    match fields.text("name") {
        Some(name) => Rendered::Name(name),
        None => Rendered::Source(fields.text("source").unwrap_or("")),
    }
}

fn over_of(fields: Fields<'_>) -> Option<Over> {
    Over::read(fields.get("over")?)
}

fn taking_of(fields: Fields<'_>) -> Option<Taking> {
    Taking::read(fields.get("to")?)
}

fn other_of(fields: Fields<'_>) -> Option<Other<'_>> {
    Some(Other {
        data: fields.get("other").or(fields.get("other_json"))?,
        expected: Expected::of_second(fields),
    })
}
