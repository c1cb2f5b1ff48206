//! The result of a render call.

ghost use Rattle.std.specs.Prelude.{◌≡◌, IsTrue, IfSome, Some, option_map, string_bytes};
ghost use Rattle.test_cases.specs.Marks.{HasMarks};
ghost use Rattle.test_cases.specs.Outcomes.{outcome_view};
ghost use Rattle.test_cases.specs.Expected.{HasMarksIfWhole, IsReturned, IsEmitted, IsWritten, Prints, outcome_of};

use crate::expected::Expected;
use crate::marks::has_marks;
use crate::names::Names;
use crate::outcome::{Failed, Outcome, refusal_in};
use crate::piece::Piece;
use crate::pieces::are_expected;
use crate::shape::line;
use handlebars_base::error::RenderError;
use log::sink::{Lines, Memory};
use serde_json::Value as JsonValue;
use std::alloc::{AllocError, Global};

/// The output, the error that ends it, if one does, and what else was observed.
pub struct Came {
    pub text: String,
    pub refusal: Option<Failed>,
    /// The whole text of the error, if there is one.
    pub printed: Option<String>,
    /// The lines that the logger was given.
    pub lines: Lines,
    /// The paths that the reader was asked for.
    pub asked: Names,
    /// The pieces that were emitted, if any.
    pub pieces: Vec<Piece>,
}

impl Drop for Came {
    fn drop(self) {
        let Came {
            text: _,
            refusal: _,
            printed: _,
            lines: _,
            asked: _,
            pieces: _,
        } = self;
    }
}

impl Came {
    /// Creates an empty result.
    pub fn new(alloc: Global) -> Came {
        Came {
            text: String::new(alloc),
            refusal: None,
            printed: None,
            lines: Lines::new(alloc),
            asked: Names::new(alloc),
            pieces: Vec::new(alloc),
        }
    }

    /// Ends the result with this answer, and with what was logged and asked for until then. The text and the pieces are
    /// unchanged.
    pub fn end(
        &mut self,
        alloc: Global,
        answer: &Result<(), RenderError>,
        log: Memory,
        asked: Names,
    ) -> Result<(), AllocError>
        ensures text { self.new.text ≡ self.old.text }
        ensures pieces { self.new.pieces ≡ self.old.pieces }
    {
        self.lines = log.into_lines();
        self.asked = asked;
        match answer {
            Ok(()) => Ok(()),
            Err(error) => self.end_early(alloc, error),
        }
    }

    fn end_early(&mut self, alloc: Global, error: &RenderError) -> Result<(), AllocError>
        ensures text { self.new.text ≡ self.old.text }
        ensures pieces { self.new.pieces ≡ self.old.pieces }
    {
        self.refusal = Some(Failed::of(alloc, error)?);
        self.printed = Some(error.to_string(alloc)?);
        Ok(())
    }

    /// Returns the output and the error.
    pub fn outcome(&self) -> Outcome<'_>
        ensures { outcome_view result ≡ outcome_of self.now }
    {
        Outcome {
            text: self.text.as_str(),
            refusal: refusal_in(&self.refusal),
        }
    }

    /// Returns whether the call returned what is expected.
    pub fn is_returned(&self, expected: &Expected<'_>) -> bool
        ensures { IsTrue result → IsReturned self.now expected.now }
    {
        self.outcome().returns_same(&expected.outcome)
            && self.reports(expected)
            && self.has_marks_if_whole(expected)
    }

    /// Returns whether the call wrote what is expected.
    pub fn is_written(&self, expected: &Expected<'_>) -> bool
        ensures { IsTrue result → IsWritten self.now expected.now }
    {
        self.outcome().equals(&expected.outcome)
            && self.reports(expected)
            && has_marks(self.text.as_str(), expected.marks)
    }

    /// Returns whether the call emitted the expected pieces.
    pub fn is_emitted(&self, expected: &Expected<'_>) -> bool
        ensures { IsTrue result → IsEmitted self.now expected.now }
    {
        self.is_written(expected) && are_expected(&self.pieces, expected.pieces)
    }

    fn has_marks_if_whole(&self, expected: &Expected<'_>) -> bool
        ensures { IsTrue result → HasMarksIfWhole self.now expected.now }
    {
        match &self.refusal {
            None => has_marks(self.text.as_str(), expected.marks),
            Some(_) => true,
        }
    }

    // Whether the printed error, the log and the paths are the expected ones, where any are expected.
    fn reports(&self, expected: &Expected<'_>) -> bool
        ensures { IsTrue result → Prints self.now expected.now }
    {
        prints(&self.printed, expected.printed)
            && logs(self.lines.as_slice(), expected.logged)
            && self.asked.are(expected.asked)
    }
}

fn prints(printed: &Option<String>, expected: Option<&str>) -> bool
    ensures { IsTrue result → IfSome expected.entry
        (λ text. option_map string_bytes printed.now ≡ Some text.now) }
{
    match (printed, expected) {
        (_, None) => true,
        (Some(printed), Some(expected)) => printed.as_str() == expected,
        (None, Some(_)) => false,
    }
}

fn logs(lines: &[String], expected: Option<&[JsonValue]>) -> bool {
    match expected {
        Some(expected) => lines.len() == expected.len() && all_show(lines, expected),
        None => true,
    }
}

fn all_show(lines: &[String], expected: &[JsonValue]) -> bool {
    for (line, expected) in lines.iter().zip(expected.iter()) {
        if !shows(line.as_str(), expected) {
            return false;
        }
    }
    true
}

// A line of the logger begins with its level, and ends with the text.
fn shows(logged: &str, expected: &JsonValue) -> bool {
    match line(expected) {
        Some((level, text)) => is_line(logged, level, text).unwrap_or(false),
        None => false,
    }
}

fn is_line(logged: &str, level: &str, text: &str) -> Option<bool> {
    let rest = logged.strip_prefix("[")?;
    Some(rest.starts_with(level) && rest.strip_suffix(text)?.ends_with("] "))
}
