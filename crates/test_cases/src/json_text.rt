//! Texts, printed as JSON, on one line.

use std::fmt;

/// A text, printed as JSON.
#[derive(Clone, Copy)]
pub struct JsonText<'t>(pub &'t str);

impl fmt::Display for JsonText<'_> {
    fn fmt<W: fmt::Write>(&self, f: &mut fmt::Formatter<W>) -> fmt::Result {
        f.write_str("\"")?;
        for c in self.0.chars() {
            write_char(f, c)?;
        }
        f.write_str("\"")
    }
}

fn write_char<W: fmt::Write>(f: &mut fmt::Formatter<W>, c: char) -> fmt::Result {
    match c {
        '"' => f.write_str("\\\""),
        '\\' => f.write_str("\\\\"),
        '\n' => f.write_str("\\n"),
        '\r' => f.write_str("\\r"),
        '\t' => f.write_str("\\t"),
        _ if is_control(c) => write!(f, "\\u{:04x}", c as u32),
        _ => write!(f, "{c}"),
    }
}

// Whether a character moves the cursor, or ends a line for some programs that read lines.
fn is_control(c: char) -> bool {
    c < ' ' || ('\u{7f}' <= c && c <= '\u{9f}') || c == '\u{2028}' || c == '\u{2029}'
}
