//! What is expected of a rendering.

use crate::fields::Fields;
use crate::outcome::{Outcome, Refusal};
use crate::piece::Piece;
use crate::pieces::PiecesOf;
use serde_json::Value as JsonValue;
use std::fmt;

/// What is expected of a rendering.
#[derive(Clone, Copy)]
pub struct Expected<'r> {
    pub outcome: Outcome<'r>,
    /// The expected marks of the text, if any.
    pub marks: Option<&'r str>,
    /// The expected pieces of the text, if any.
    pub pieces: Option<&'r [Piece]>,
    /// The whole expected text of the error, if any.
    pub printed: Option<&'r str>,
    /// The expected lines of the logger, each a level and a text, if any.
    pub logged: Option<&'r [JsonValue]>,
    /// The paths that are expected to be read or listed, if any.
    pub asked: Option<&'r [JsonValue]>,
}

impl<'r> Expected<'r> {
    /// Returns what the fields expect of the first run of a test case.
    pub fn of_first(fields: Fields<'r>, pieces: Option<&'r [Piece]>) -> Expected<'r> {
        Expected {
            outcome: outcome(fields, "text", fields.text("reason")),
            marks: fields.text("marks"),
            pieces,
            printed: fields.text("printed"),
            logged: fields.elements("logged"),
            asked: fields.elements("asked"),
        }
    }

    /// Returns what the fields expect of the second run. Its reason and its marks default to those of the first run.
    pub fn of_second(fields: Fields<'r>) -> Expected<'r> {
        let reason = fields.text("other_reason").or(fields.text("reason"));
        Expected {
            outcome: outcome(fields, "other_text", reason),
            marks: fields.text("other_marks").or(fields.text("marks")),
            pieces: None,
            printed: None,
            logged: None,
            asked: None,
        }
    }
}

fn outcome<'r>(fields: Fields<'r>, text: &str, reason: Option<&'r str>) -> Outcome<'r> {
    Outcome {
        text: fields.text(text).unwrap_or(""),
        refusal: refusal(fields, reason),
    }
}

/// Returns the error with this reason, if there is one, at the line and the column that the fields give.
pub fn refusal<'r>(fields: Fields<'r>, reason: Option<&'r str>) -> Option<Refusal<'r>> {
    match reason {
        Some(reason) => Some(Refusal {
            reason,
            line: fields.number("line"),
            column: fields.number("column"),
            template: fields.text("template"),
        }),
        None => None,
    }
}

impl fmt::Display for Expected<'_> {
    fn fmt<W: fmt::Write>(&self, f: &mut fmt::Formatter<W>) -> fmt::Result {
        let outcome = &self.outcome;
        write!(f, "    expected:   {outcome}")?;
        if let Some(marks) = self.marks {
            write!(f, "\n      marks: {marks:?}")?;
        }
        if let Some(pieces) = self.pieces {
            write!(f, "\n      pieces: {}", PiecesOf(pieces))?;
        }
        if let Some(text) = self.printed {
            write!(f, "\n      printed: {text:?}")?;
        }
        if let Some(lines) = self.logged {
            write_lines(f, lines)?;
        }
        if let Some(paths) = self.asked {
            write!(f, "\n      asked: {paths:?}")?;
        }
        Ok(())
    }
}

fn write_lines<W: fmt::Write>(f: &mut fmt::Formatter<W>, lines: &[JsonValue]) -> fmt::Result {
    for line in lines {
        write!(f, "\n      logged: {line}")?;
    }
    Ok(())
}
