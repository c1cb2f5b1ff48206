//! Positions in a text.

/// A position in a text: between two characters, at its start or at its end.
#[derive(Clone, Copy, Debug, PartialEq, Eq)]
pub struct Position {
    /// The offset from the start of the text, in bytes.
    pub offset: usize,
    /// The 1-based line. A line ends with `\n`.
    pub line: usize,
    /// The 1-based column, in characters (Unicode scalar values).
    pub column: usize,
}

impl Position {
    ghost use Rattle.std.specs.Prelude.{◌≡◌, ◌<◌, MatchBool, chars};
    ghost use Rattle.handlebars_report.specs.Position.{IsAfter, IsOffsetOf, IsUpTo, position_after};
    ghost use Rattle.handlebars_report.specs.Stepping.{HasRoom, stepped};

    // The start of a text.
    const START: Position = Position {
        offset: 0,
        line: 1,
        column: 1,
    };

    /// Returns the position at the end of a text.
    ///
    /// Runs in time linear in the text.
    pub(crate) fn after(before: &str) -> Position
        ensures { result ≡ position_after (chars before.now) }
    {
        let mut position = Position::START;
        'chars: for c in before.chars() {
            position = position.step(c);
        }
        position
    }

    /// Returns the offset of a line and a column: the last position of the text that is not after them.
    ///
    /// Runs in time linear in the text.
    pub(crate) fn offset_of(text: &str, line: usize, column: usize) -> usize
        requires line { 0 < line }
        requires column { 0 < column }
        ensures { IsOffsetOf text.now line column result }
    {
        let mut position = Position::START;
        'chars: for c in text.chars() {
            let next = position.step(c);
            if next.is_after(line, column) {
                return position.offset;
            }
            position = next;
        }
        position.offset
    }

    // Whether the position is after a line and a column.
    fn is_after(self, line: usize, column: usize) -> bool
        ensures { MatchBool result (IsAfter line column self) (IsUpTo line column self) }
    {
        line < self.line || line == self.line && column < self.column
    }

    // Returns the position after one more character.
    fn step(self, c: char) -> Position
        requires { HasRoom self }
        ensures { result ≡ stepped self c }
    {
        let offset = self.offset + c.len_utf8();
        if c == '\n' {
            Position {
                offset,
                line: self.line + 1,
                column: 1,
            }
        } else {
            Position {
                offset,
                line: self.line,
                column: self.column + 1,
            }
        }
    }
}
