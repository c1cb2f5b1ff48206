//! The fields of test cases, of their steps and of their pieces.

use crate::names::is_among;
use crate::shape::{Element, Shape};

/// Fields that may have the same values: the values, what is wrong with any other value, and the names of the fields, separated
/// by spaces.
pub type Group = (Shape, &'static str, &'static str);

/// The fields that an object may have.
#[derive(Clone, Copy)]
pub struct Format {
    groups: &'static [Group],
    /// What is wrong with a field of another name.
    pub unknown: &'static str,
}

impl Format {
    /// Returns which values the field of this name may have, and what is wrong with any other value.
    pub fn find(&self, name: &str) -> Option<(Shape, &'static str)> {
        for (shape, what, names) in self.groups {
            if is_among(name, names) {
                return Some((*shape, *what));
            }
        }
        None
    }
}

/// The fields of a test case that renders.
pub const RENDERING: Format = Format {
    groups: &[
        (
            Shape::Text,
            "is no text",
            "source name text marks reason template printed other_text other_reason other_marks",
        ),
        (Shape::Json, "is no text", "json other_json"),
        (Shape::Any, "", "data other"),
        (
            Shape::Boolean,
            "is no boolean",
            "strict recursive prevent_indent sweep",
        ),
        (Shape::Number, "is no number from 0 on", "line column takes"),
        (Shape::Limit, "is no number from 0 to 65535", "limit"),
        (
            Shape::Members(Element::Text),
            "has a member that is no text",
            "templates",
        ),
        (
            Shape::Members(Element::Helper),
            "has a member that is no helper",
            "helpers",
        ),
        (
            Shape::Members(Element::FileAnswer),
            "has a member that is no file and no folder",
            "files",
        ),
        (
            Shape::List(Element::Line),
            "has an element that is no line",
            "logged",
        ),
        (
            Shape::List(Element::Text),
            "has an element that is no text",
            "asked",
        ),
        (Shape::List(Element::Any), "", "steps pieces"),
        (Shape::Escape, "is no kind of escape", "escape"),
        (Shape::Over, "is neither context nor value", "over"),
        (Shape::Fault, "is no fault", "fault"),
        (Shape::Writer, "is no writer", "to"),
    ],
    unknown: "is no field",
};

/// The fields of a test case that asks one call.
pub const CALL: Format = Format {
    groups: &[
        (Shape::Text, "is no text", "call name gives printed"),
        (Shape::Any, "", "of data"),
    ],
    unknown: "is no field",
};

/// The fields of a step.
pub const STEP: Format = Format {
    groups: &[
        (
            Shape::Text,
            "is no text",
            "folder unregister extension reason template",
        ),
        (Shape::True, "is not true", "clear"),
        (Shape::Boolean, "is no boolean", "dev hidden temporary"),
        (Shape::Number, "is no number from 0 on", "line column"),
        (
            Shape::Members(Element::Text),
            "has a member that is no text",
            "register file",
        ),
        (
            Shape::Members(Element::FileAnswer),
            "has a member that is no file and no folder",
            "files",
        ),
        (
            Shape::List(Element::Text),
            "has an element that is no text",
            "asked names",
        ),
    ],
    unknown: "is no field of a step",
};

/// The fields of a piece.
pub const PIECE: Format = Format {
    groups: &[
        (Shape::Text, "is no text", "text"),
        (Shape::TextOrNull, "is no text", "template"),
        (Shape::PieceKind, "is no kind of a piece", "kind"),
        (Shape::Number, "is no number from 0 on", "line column"),
        (
            Shape::List(Element::Number),
            "has an element that is no number from 0 on",
            "turns",
        ),
        (
            Shape::List(Element::Text),
            "has an element that is no text",
            "path",
        ),
    ],
    unknown: "is no field of a piece",
};
