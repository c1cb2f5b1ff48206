//! Pieces of the output, each with its origin.

ghost use Rattle.std.specs.Prelude.{◌≡◌, IsTrue, map, option_map, string_bytes};
ghost use Rattle.test_cases.specs.Pieces.{piece_view, template_view};

use crate::json_text::JsonText;
use handlebars_template::template::TemplateMapping;
use serde_json::Value as JsonValue;
use std::alloc::Global;
use std::fmt;

/// A piece of the output, as it is emitted.
pub struct Piece {
    pub text: String,
    pub kind: Kind,
    pub template: PieceTemplate,
    /// The line and the column of the element that writes it, if it has a position.
    pub position: Option<TemplateMapping>,
    /// The index of the current iteration of each `each` around the element, the outermost first.
    pub iterations: Vec<usize>,
    /// The path at which a value was found, if it has one.
    pub path: Option<Vec<String>>,
}

impl Drop for Piece {
    fn drop(self) {
        let Piece {
            text: _,
            kind: _,
            template: _,
            position: _,
            iterations: _,
            path: _,
        } = self;
    }
}

/// The kind of a piece.
#[derive(Clone, Copy, PartialEq)]
pub enum Kind {
    TemplateText,
    Indentation,
    EscapedValue,
    RawValue,
    HelperBoolean,
    UserText,
}

/// The template that an element belongs to.
#[derive(Drop)]
pub enum PieceTemplate {
    /// The template that is rendered.
    First,
    /// An included template, by its name. An inline partial has none.
    Included(Option<String>),
}

impl Kind {
    /// Returns the kind that a text names.
    pub fn read(value: &JsonValue) -> Option<Kind> {
        Kind::named(value.as_str()?)
    }

    /// Returns the kind of that name.
    pub fn named(name: &str) -> Option<Kind> {
        match name {
            "text" => Some(Kind::TemplateText),
            "indentation" => Some(Kind::Indentation),
            "value" => Some(Kind::EscapedValue),
            "raw" => Some(Kind::RawValue),
            "word" => Some(Kind::HelperBoolean),
            "own" => Some(Kind::UserText),
            _ => None,
        }
    }

    fn name(self) -> &'static str {
        match self {
            Kind::TemplateText => "text",
            Kind::Indentation => "indentation",
            Kind::EscapedValue => "value",
            Kind::RawValue => "raw",
            Kind::HelperBoolean => "word",
            Kind::UserText => "own",
        }
    }
}

impl Piece {
    /// Creates an empty piece of this kind, with the position of its element.
    pub fn new(alloc: Global, kind: Kind, position: Option<TemplateMapping>) -> Piece {
        Piece {
            text: String::new(alloc),
            kind,
            template: PieceTemplate::First,
            position,
            iterations: Vec::new(alloc),
            path: None,
        }
    }

    /// Returns whether both pieces are equal.
    pub fn equals(&self, other: &Piece) -> bool
        ensures { IsTrue result → piece_view self.now ≡ piece_view other.now }
    {
        self.text == other.text
            && self.kind == other.kind
            && self.template.equals(&other.template)
            && self.position == other.position
            && self.iterations == other.iterations
            && are_one_path(&self.path, &other.path)
    }
}

impl PieceTemplate {
    fn equals(&self, other: &PieceTemplate) -> bool
        ensures { IsTrue result → template_view self.now ≡ template_view other.now }
    {
        match (self, other) {
            (PieceTemplate::First, PieceTemplate::First) => true,
            (PieceTemplate::Included(own), PieceTemplate::Included(others)) => *own == *others,
            _ => false,
        }
    }
}

fn are_one_path(own: &Option<Vec<String>>, others: &Option<Vec<String>>) -> bool
    ensures { IsTrue result → option_map (λ names. map string_bytes names.items) own.now
        ≡ option_map (λ names. map string_bytes names.items) others.now }
{
    match (own, others) {
        (None, None) => true,
        (Some(own), Some(others)) => are_one(own, others),
        _ => false,
    }
}

fn are_one(own: &Vec<String>, others: &Vec<String>) -> bool
    ensures { IsTrue result → map string_bytes own.now.items ≡ map string_bytes others.now.items }
{
    *own == *others
}

// Prints the piece as a test case has it. Absent fields are not printed.
impl fmt::Display for Piece {
    fn fmt<W: fmt::Write>(&self, f: &mut fmt::Formatter<W>) -> fmt::Result {
        let (text, kind) = (JsonText(self.text.as_str()), self.kind.name());
        write!(f, "{{\"text\": {text}, \"kind\": \"{kind}\"")?;
        write_template(f, &self.template)?;
        if let Some(TemplateMapping(line, column)) = &self.position {
            write!(f, ", \"line\": {line}, \"column\": {column}")?;
        }
        let iterations = &self.iterations;
        if !iterations.is_empty() {
            write!(f, ", \"turns\": {iterations:?}")?;
        }
        if let Some(path) = &self.path {
            write_path(f, path.as_slice())?;
        }
        f.write_str("}")
    }
}

fn write_template<W: fmt::Write>(
    f: &mut fmt::Formatter<W>,
    template: &PieceTemplate,
) -> fmt::Result {
    match template {
        PieceTemplate::First => Ok(()),
        PieceTemplate::Included(None) => f.write_str(", \"template\": null"),
        PieceTemplate::Included(Some(name)) => {
            write!(f, ", \"template\": {}", JsonText(name.as_str()))
        }
    }
}

fn write_path<W: fmt::Write>(f: &mut fmt::Formatter<W>, path: &[String]) -> fmt::Result {
    f.write_str(", \"path\": [")?;
    for (index, name) in path.iter().enumerate() {
        if index > 0 {
            f.write_str(", ")?;
        }
        write!(f, "{}", JsonText(name.as_str()))?;
    }
    f.write_str("]")
}
