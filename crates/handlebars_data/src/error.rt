//! Why data can't be read, and where.

ghost use Rattle.std.specs.Prelude.{◌≡◌, ◌≤◌, ◌↔◌, IsTrue, length, take};

use crate::position::position_of;
use std::alloc::{AllocError, AllocFailed};
use std::fmt;
use std::fmt::InlineText;

/// The longest message of another reader, in bytes. A longer one is cut.
pub const MESSAGE_LEN: usize = 88;

/// What a JSON text must have at a position (RFC 8259).
#[derive(Clone, Copy, Drop)]
pub enum Expected {
    Value,
    /// A value, where the text begins with a byte order mark (section 8.1).
    ValueWithoutMark,
    ValueOrEndArray,
    Key,
    KeyOrEndObject,
    Colon,
    CommaOrEndArray,
    CommaOrEndObject,
    EndOfText,
    /// A digit of a number.
    Digit,
    /// The closing quote of a string. A string has no line feed.
    Quote,
    /// Another control character of a string, written as an escape.
    EscapedControl,
    /// The character after a backslash.
    Escape,
    /// One of the four digits after `\u`.
    HexDigit,
    /// The first half of a surrogate pair, before the half that stands there.
    HighSurrogate,
    /// The second half of a surrogate pair.
    LowSurrogate,
}

impl fmt::Display for Expected {
    fn fmt<W: fmt::Write>(&self, f: &mut fmt::Formatter<W>) -> fmt::Result {
        f.write_str(match self {
            Expected::Value => "a value",
            Expected::ValueWithoutMark =>
                "a value, found a byte order mark: save the text without it",
            Expected::ValueOrEndArray => "a value or `]`",
            Expected::Key => "a key in quotes",
            Expected::KeyOrEndObject => "a key in quotes or `}`",
            Expected::Colon => "`:`",
            Expected::CommaOrEndArray => "`,` or `]`",
            Expected::CommaOrEndObject => "`,` or `}`",
            Expected::EndOfText => "the end of the text",
            Expected::Digit => "a digit",
            Expected::Quote => "a closing quote",
            Expected::EscapedControl => "an escape for the control character",
            Expected::Escape =>
                "one of `\"`, `\\`, `/`, `b`, `f`, `n`, `r`, `t` and `u` after the backslash",
            Expected::HexDigit => "a hexadecimal digit",
            Expected::HighSurrogate => "the first half of a surrogate pair",
            Expected::LowSurrogate => "the second half of a surrogate pair",
        })
    }
}

/// The reason why data can't be read.
#[derive(Clone, Copy, Drop)]
pub enum DataErrorKind {
    /// A text is no JSON: something else is expected at the position.
    Expected(Expected),
    /// Arrays and objects nest deeper than 127.
    TooDeep,
    /// A number is too large for a float, as `1e999`.
    NumberTooLarge,
    /// A number is no integer of 64 bits, where such a number is an error.
    NumberNotInteger,
    /// A text is not UTF-8.
    NotUtf8,
    /// A row has another number of fields than the header. Rows are counted from 1, and the header is row 1.
    RaggedRow { row: u64, header: u64, fields: u64 },
    /// A field of a row is not UTF-8. Rows and fields are counted from 1, and the header is row 1.
    FieldNotUtf8 { row: u64, field: u64 },
    /// The message of the TOML reader.
    Toml(InlineText<MESSAGE_LEN>),
    /// A reader fails.
    Io(std::io::ErrorKind),
    OutOfMemory,
}

impl fmt::Display for DataErrorKind {
    fn fmt<W: fmt::Write>(&self, f: &mut fmt::Formatter<W>) -> fmt::Result {
        match self {
            DataErrorKind::Expected(expected) => write!(f, "expected {expected}"),
            DataErrorKind::TooDeep => f.write_str("arrays and objects nest deeper than 127"),
            DataErrorKind::NumberTooLarge => f.write_str("number too large"),
            DataErrorKind::NumberNotInteger => f.write_str("number is not an integer of 64 bits"),
            DataErrorKind::NotUtf8 => f.write_str("not UTF-8"),
            DataErrorKind::RaggedRow {
                row,
                header,
                fields,
            } => write!(f, "row {row}: expected {header} fields, found {fields}"),
            DataErrorKind::FieldNotUtf8 { row, field } => {
                write!(f, "row {row}: field {field} is not UTF-8")
            }
            DataErrorKind::Toml(message) => f.write_str(message.as_str()),
            DataErrorKind::Io(kind) => write!(f, "{kind}"),
            DataErrorKind::OutOfMemory => f.write_str("out of memory"),
        }
    }
}

/// An error of reading data: its reason, line and column.
#[derive(Clone, Copy, Drop)]
pub struct DataError {
    kind: DataErrorKind,
    line: usize,
    column: usize,
}

impl DataError {
    ghost use Rattle.handlebars_data.specs.Errors.{kind_of, line_of, column_of, position_in, IsMemory};
    ghost use Rattle.handlebars_data.specs.Position.{position};

    /// Creates an error at an offset of a text, in bytes.
    ///
    /// Runs in time linear in the offset.
    pub fn at(kind: DataErrorKind, text: &[u8], offset: usize) -> DataError
        requires { offset ≤ length text.now }
        ensures kind { kind_of result ≡ kind }
        ensures position { position_in result ≡ position (take offset text.now) }
    {
        let (line, column) = position_of(text, offset);
        DataError { kind, line, column }
    }

    /// Creates an error at a position. Lines and columns are 1-based, and columns count characters.
    pub fn new(kind: DataErrorKind, line: usize, column: usize) -> DataError
        ensures kind { kind_of result ≡ kind }
        ensures line { line_of result ≡ line }
        ensures column { column_of result ≡ column }
    {
        DataError { kind, line, column }
    }

    /// Creates an error with no position, as one of memory.
    pub fn without_position(kind: DataErrorKind) -> DataError
        ensures kind { kind_of result ≡ kind }
        ensures line { line_of result ≡ 0 }
        ensures column { column_of result ≡ 0 }
    {
        DataError {
            kind,
            line: 0,
            column: 0,
        }
    }

    /// Returns the reason. Its `Display` is the message with no position.
    pub fn kind(&self) -> DataErrorKind
        ensures { result ≡ kind_of self.now }
    {
        self.kind
    }

    /// Returns the 1-based line, or 0 if the error has no position.
    pub fn line(&self) -> usize
        ensures { result ≡ line_of self.now }
    {
        self.line
    }

    /// Returns the 1-based column in characters, or 0 if the error has no position.
    pub fn column(&self) -> usize
        ensures { result ≡ column_of self.now }
    {
        self.column
    }

    /// Whether memory ran out.
    pub fn is_memory(&self) -> bool
        ensures { IsTrue result ↔ IsMemory self.now }
    {
        matches!(self.kind, DataErrorKind::OutOfMemory)
    }
}

impl From<AllocError> for DataError {
    ghost use Rattle.handlebars_data.specs.Errors.{IsMemory};

    ghost from_gives = { λ _ e. IsMemory e };

    fn from(_e: AllocError) -> DataError {
        DataError::without_position(DataErrorKind::OutOfMemory)
    }
}

impl<T: Drop> From<AllocFailed<T>> for DataError {
    ghost use Rattle.handlebars_data.specs.Errors.{IsMemory};

    ghost from_gives = { λ _ e. IsMemory e };

    fn from(_e: AllocFailed<T>) -> DataError {
        DataError::without_position(DataErrorKind::OutOfMemory)
    }
}

impl fmt::Display for DataError {
    fn fmt<W: fmt::Write>(&self, f: &mut fmt::Formatter<W>) -> fmt::Result {
        if self.line > 0 {
            let (line, column) = (self.line, self.column);
            write!(f, "line {line}, column {column}: ")?;
        }
        let kind = self.kind;
        write!(f, "{kind}")
    }
}

impl fmt::Debug for DataError {
    fn fmt<W: fmt::Write>(&self, f: &mut fmt::Formatter<W>) -> fmt::Result {
        write!(f, "DataError({self})")
    }
}

impl std::error::Error for DataError {}
