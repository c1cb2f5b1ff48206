//! Printing the result of a render call.

use crate::came::Came;
use crate::expected::Expected;
use crate::marks::MarksOf;
use crate::pieces::PiecesOf;
use std::fmt;

impl Came {
    /// Prints the output, with its marks if marks are expected, and with its pieces if pieces are expected and the call emits
    /// them.
    pub fn show_written<W: fmt::Write>(
        &self,
        f: &mut fmt::Formatter<W>,
        render_call: &str,
        expected: &Expected<'_>,
        emits_pieces: bool,
    ) -> fmt::Result {
        write!(f, "\n    {render_call} {}", self.outcome())?;
        if expected.marks.is_some() {
            write!(f, "\n      marks: {}", MarksOf(self.text.as_str()))?;
        }
        if emits_pieces && expected.pieces.is_some() {
            write!(f, "\n      pieces: {}", PiecesOf(self.pieces.as_slice()))?;
        }
        self.show_reported(f)
    }

    /// Prints what a call returns: the text, or only the error if the call fails.
    pub fn show_returned<W: fmt::Write>(
        &self,
        f: &mut fmt::Formatter<W>,
        render_call: &str,
        expected: &Expected<'_>,
    ) -> fmt::Result {
        match self.outcome().refusal {
            Some(refusal) => {
                write!(f, "\n    {render_call} {refusal}")?;
                self.show_reported(f)
            }
            None => self.show_written(f, render_call, expected, false),
        }
    }

    fn show_reported<W: fmt::Write>(&self, f: &mut fmt::Formatter<W>) -> fmt::Result {
        if let Some(text) = &self.printed {
            write!(f, "\n      printed: {text:?}")?;
        }
        for line in self.lines.as_slice() {
            write!(f, "\n      logged: {line:?}")?;
        }
        let asked = &self.asked;
        match asked.is_empty() {
            true => Ok(()),
            false => write!(f, "\n      asked: {asked}"),
        }
    }
}
