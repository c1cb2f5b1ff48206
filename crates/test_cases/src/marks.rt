//! The marks of html in a text.

ghost use Rattle.std.specs.Prelude.{◌≡◌, ℕ, List, ◌∷◌, IfSome, IsTrue};
ghost use Rattle.handlebars_base.specs.EscapeLaws.{is_mark, marks_in};
ghost use Rattle.test_cases.specs.Marks.{HasMarks};

use std::fmt;

/// Returns whether the text has these marks. True if none are expected.
pub fn has_marks(text: &str, expected: Option<&str>) -> bool
    ensures { IsTrue result → HasMarks text.now expected.entry }
{
    match expected {
        Some(marks) => are_marks(text.as_bytes(), marks.as_bytes()),
        None => true,
    }
}

// Whether these are the marks of the text, in order.
fn are_marks(text: &[u8], marks: &[u8]) -> bool
    ensures { IsTrue result → marks_in text.now ≡ marks.now }
{
    let mut left = marks;
    for byte in text {
        match after(*byte, left) {
            Some(rest) => left = rest,
            None => return false,
        }
    }
    left.is_empty()
}

// The marks that remain after a byte, if these can be the marks of a text that begins with it.
fn after(byte: u8, marks: &[u8]) -> Option<&[u8]>
    ensures { IfSome result (λ left. (rest : List ℕ) → marks_in rest ≡ left.now
        → marks_in (byte ∷ rest) ≡ marks.now) }
{
    if !is_mark(byte) {
        return Some(marks);
    }
    match marks.split_first() {
        Some((mark, rest)) => match *mark == byte {
            true => Some(rest),
            false => None,
        },
        None => None,
    }
}

// One of `<`, `>`, `"`, `'`, the backquote and `=`.
fn is_mark(byte: u8) -> bool
    ensures { result ≡ is_mark byte }
{
    byte == b'<' || byte == b'>' || byte == b'"' || byte == b'\'' || byte == b'`' || byte == b'='
}

/// The marks of a text, printed as a text.
#[derive(Clone, Copy)]
pub struct MarksOf<'t>(pub &'t str);

impl fmt::Display for MarksOf<'_> {
    fn fmt<W: fmt::Write>(&self, f: &mut fmt::Formatter<W>) -> fmt::Result {
        f.write_str("\"")?;
        for byte in self.0.bytes() {
            if is_mark(byte) {
                write_mark(f, byte)?;
            }
        }
        f.write_str("\"")
    }
}

fn write_mark<W: fmt::Write>(f: &mut fmt::Formatter<W>, mark: u8) -> fmt::Result {
    match mark {
        b'"' => f.write_str("\\\""),
        _ => write!(f, "{}", mark as char),
    }
}
