//! Where the bytes of a TOML text stand.

ghost use Rattle.std.specs.Prelude.{◌≡◌, ◌+◌, ◌-◌, ◌^◌, ◌<◌, ◌≤◌, false};
ghost use Rattle.handlebars_data.specs.TomlPlaces as spec;

/// What the next byte stands in.
#[derive(Clone, Copy, Drop)]
pub(crate) enum Inside {
    /// None of the others.
    Nothing,
    /// A comment or a header, up to the end of its line.
    Line,
    /// A string of which one delimiter was read.
    Opened(u8),
    /// An empty string, if no third delimiter follows.
    OpenedTwice(u8),
    /// A string of one line. If a backslash came before, its escape goes on.
    OneLine(u8, bool),
    /// A string of several lines, with the number of delimiters at its end, at most 3.
    Lines(u8, bool, u8),
}

/// A place in a TOML text.
#[derive(Clone, Copy, Drop)]
pub(crate) struct Place {
    /// How many brackets of arrays and inline tables are open.
    pub(crate) depth: usize,
    /// Whether nothing but white space came before in the line.
    pub(crate) begins_line: bool,
    pub(crate) inside: Inside,
}

impl Place {
    /// Returns the start of a text.
    pub(crate) fn start() -> Place
        ensures { result ≡ spec.start }
    {
        Place {
            depth: 0,
            begins_line: true,
            inside: Inside::Nothing,
        }
    }

    /// Whether the next byte stands in no string, comment or header.
    pub(crate) fn is_between(&self) -> bool
        ensures { result ≡ spec.is_between self.now.inside }
    {
        matches!(self.inside, Inside::Nothing)
    }

    /// Returns the place after one more byte.
    pub(crate) fn step(self, byte: u8) -> Place
        requires { self.depth < 2 ^ 64 - 1 }
        ensures place { result ≡ spec.step self byte }
        ensures depth { result.depth ≤ self.depth + 1 }
    {
        match self.inside {
            Inside::Nothing => self.plain_step(byte),
            Inside::Line => self.line_step(byte),
            Inside::Opened(delimiter) => {
                if byte == delimiter {
                    self.within(Inside::OpenedTwice(delimiter))
                } else {
                    self.one_line_step(delimiter, false, byte)
                }
            }
            Inside::OpenedTwice(delimiter) => {
                if byte == delimiter {
                    self.within(Inside::Lines(delimiter, false, 0))
                } else {
                    self.plain_step(byte)
                }
            }
            Inside::OneLine(delimiter, escaped) => self.one_line_step(delimiter, escaped, byte),
            Inside::Lines(delimiter, escaped, run) => {
                self.lines_step(delimiter, escaped, run, byte)
            }
        }
    }

    fn within(self, inside: Inside) -> Place
        ensures { result ≡ record self { inside = inside } }
    {
        Place {
            depth: self.depth,
            begins_line: self.begins_line,
            inside,
        }
    }

    fn at_line(self, begins_line: bool, inside: Inside) -> Place
        ensures { result ≡ record self { begins_line = begins_line; inside = inside } }
    {
        Place {
            depth: self.depth,
            begins_line,
            inside,
        }
    }

    fn in_brackets(self, depth: usize) -> Place
        ensures { result ≡ record { depth = depth; begins_line = false; inside = Inside.Nothing } }
    {
        Place {
            depth,
            begins_line: false,
            inside: Inside::Nothing,
        }
    }

    fn line_step(self, byte: u8) -> Place
        ensures place { result ≡ spec.step_in Inside.Line self byte }
        ensures depth { result.depth ≡ self.depth }
    {
        if byte == b'\n' {
            self.at_line(true, Inside::Nothing)
        } else {
            self
        }
    }

    fn plain_step(self, byte: u8) -> Place
        requires { self.depth < 2 ^ 64 - 1 }
        ensures place { result ≡ spec.plain_step self byte }
        ensures depth { result.depth ≤ self.depth + 1 }
    {
        match byte {
            b'\n' => self.at_line(true, Inside::Nothing),
            b'"' | b'\'' => self.at_line(false, Inside::Opened(byte)),
            b'#' => self.at_line(false, Inside::Line),
            b'[' if self.begins_line && self.depth == 0 => self.at_line(false, Inside::Line),
            b'[' | b'{' => self.in_brackets(self.depth + 1),
            b']' | b'}' => self.in_brackets(self.depth.saturating_sub(1)),
            // A byte from 128 on is one of a byte order mark, before which nothing stands.
            b' ' | b'\t' | 128..=255 => self.within(Inside::Nothing),
            _ => self.at_line(false, Inside::Nothing),
        }
    }

    fn one_line_step(self, delimiter: u8, escaped: bool, byte: u8) -> Place
        ensures place { result ≡ spec.one_line_step self delimiter escaped byte }
        ensures depth { result.depth ≡ self.depth }
    {
        if escaped {
            self.within(Inside::OneLine(delimiter, false))
        } else if byte == delimiter {
            self.within(Inside::Nothing)
        } else {
            self.within(Inside::OneLine(delimiter, escapes(delimiter, byte)))
        }
    }

    fn lines_step(self, delimiter: u8, escaped: bool, run: u8, byte: u8) -> Place
        requires { self.depth < 2 ^ 64 - 1 }
        ensures place { result ≡ spec.lines_step self delimiter escaped run byte }
        ensures depth { result.depth ≤ self.depth + 1 }
    {
        if escaped {
            self.within(Inside::Lines(delimiter, false, 0))
        } else if byte == delimiter {
            self.within(Inside::Lines(delimiter, false, if run < 3 { run + 1 } else { 3 }))
        } else if run < 3 {
            self.within(Inside::Lines(delimiter, escapes(delimiter, byte), 0))
        } else {
            self.plain_step(byte)
        }
    }
}

// Whether a byte escapes the one after it, in a string with this delimiter.
fn escapes(delimiter: u8, byte: u8) -> bool
    ensures { result ≡ spec.escapes delimiter byte }
{
    byte == b'\\' && delimiter == b'"'
}
