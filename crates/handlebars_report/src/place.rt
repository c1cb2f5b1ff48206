//! Places in files.

use crate::position::Position;
use std::alloc::{AllocError, Global};
use std::ops::Range;

/// A range in a file, and the text of the line on which it starts.
#[derive(Clone, Drop)]
pub struct Place {
    path: String,
    start: Position,
    end: Position,
    line_text: String,
}

impl Place {
    ghost use Rattle.std.specs.Prelude.{◌≡◌, ◌≤◌, IfOk, IsCharBoundary, max, string_bytes};
    ghost use Rattle.handlebars_report.specs.Place.{IsFloor, IsPlaceIn};
    ghost use Rattle.handlebars_report.specs.Position.{IsOffsetOf};
    ghost use Rattle.handlebars_report.specs.Text.{last_column};
    ghost use Rattle.handlebars_report.specs.View.{place_view};

    /// Creates the place of a range in the text of a file, in bytes.
    ///
    /// An offset past the end of the text is taken as that end, one within a character as the start of that character, and an end
    /// before the start as the start. Runs in time linear in the text.
    ///
    /// # Errors
    ///
    /// Fails if memory runs out.
    pub fn in_text(
        alloc: Global,
        path: &str,
        text: &str,
        range: Range<usize>,
    ) -> Result<Place, AllocError>
        ensures lies { IfOk result (λ p. IsPlaceIn path.now text.now (place_view p)) }
        ensures start { IfOk result (λ p. IsFloor text.now range.start (place_view p).start.offset) }
        ensures end { IfOk result
            (λ p. IsFloor text.now (max range.start range.end) (place_view p).end.offset) }
    {
        let start = text.floor_char_boundary(range.start);
        let end = text.floor_char_boundary(range.start.max(range.end));
        Place::between(alloc, path, text, start, end)
    }

    /// Creates the empty place at a line and a column of the text of a file. Both are 1-based, and columns count characters.
    ///
    /// A column past the end of its line is taken as that end, a line past the end of the text as that end, and 0 as 1. Runs in
    /// time linear in the text.
    ///
    /// # Errors
    ///
    /// Fails if memory runs out.
    pub fn at_position(
        alloc: Global,
        path: &str,
        text: &str,
        line: usize,
        column: usize,
    ) -> Result<Place, AllocError>
        ensures lies { IfOk result (λ p. IsPlaceIn path.now text.now (place_view p)) }
        ensures at { IfOk result
            (λ p. IsOffsetOf text.now (max line 1) (max column 1) (place_view p).start.offset) }
        ensures empty { IfOk result (λ p. (place_view p).end ≡ (place_view p).start) }
    {
        let offset = Position::offset_of(text, line.max(1), column.max(1));
        Place::between(alloc, path, text, offset, offset)
    }

    // Creates the place between two offsets.
    fn between(
        alloc: Global,
        path: &str,
        text: &str,
        start: usize,
        end: usize,
    ) -> Result<Place, AllocError>
        requires starts { IsCharBoundary text.now start }
        requires ends { IsCharBoundary text.now end }
        requires ordered { start ≤ end }
        ensures lies { IfOk result (λ p. IsPlaceIn path.now text.now (place_view p)) }
        ensures start { IfOk result (λ p. (place_view p).start.offset ≡ start) }
        ensures end { IfOk result (λ p. (place_view p).end.offset ≡ end) }
    {
        let start = Position::after(&text[..start]);
        let end = Position::after(&text[..end]);
        Ok(Place {
            path: String::from_str(alloc, path)?,
            start,
            end,
            line_text: String::from_str(alloc, line_of(text, start.line))?,
        })
    }

    /// Returns the path of the file.
    pub fn path(&self) -> &str
        ensures { result.now ≡ (place_view self.now).path }
    {
        self.path.as_str()
    }

    /// Returns where the place starts.
    pub fn start(&self) -> Position
        ensures { result ≡ (place_view self.now).start }
    {
        self.start
    }

    /// Returns where the place ends.
    pub fn end(&self) -> Position
        ensures { result ≡ (place_view self.now).end }
    {
        self.end
    }

    /// Returns the text of the line on which the place starts, without its line break.
    pub fn line_text(&self) -> &str
        ensures { result.now ≡ (place_view self.now).line_text }
    {
        self.line_text.as_str()
    }

    /// Returns the 1-based column where the place ends, or where its first line does.
    pub(crate) fn last_column(&self) -> usize
        ensures { result ≡ last_column (place_view self.now) }
    {
        let line_end = self.line_text.as_str().chars().count() + 1;
        if self.end.line == self.start.line {
            self.end.column.min(line_end)
        } else {
            line_end
        }
    }
}

ghost use Rattle.std.specs.Prelude.{◌≡◌};
ghost use Rattle.handlebars_report.specs.Place.{line_text};

// Returns the text of a line, without its line break.
fn line_of(text: &str, line: usize) -> &str
    ensures { result.now ≡ line_text text.now line }
{
    text.lines().nth(line.saturating_sub(1)).unwrap_or("")
}
