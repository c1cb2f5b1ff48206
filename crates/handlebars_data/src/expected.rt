//! Where a text stops being JSON, and what is expected there. This runs only once a text was refused.

mod number;
mod open;
mod string;

ghost use Rattle.std.specs.Prelude.{◌≡◌, ◌≤◌, ◌<◌, length, IfOk, IfErr};

use crate::error::Expected;
use crate::json_text::Numbers;
use number::number_end;
use open::{Container, Open};
use string::string_end;

/// A place that is no JSON: its offset in bytes, and what is expected there.
#[derive(Clone, Copy, Drop)]
pub struct Misfit {
    pub offset: usize,
    pub expected: Expected,
}

impl Misfit {
    fn at(offset: usize, expected: Expected) -> Misfit
        ensures { result.offset ≡ offset }
    {
        Misfit { offset, expected }
    }
}

const BYTE_ORDER_MARK: &[u8] = b"\xEF\xBB\xBF";

/// Returns the first place at which a text stops being JSON, has a number that is refused, or nests too deep. Where the text is
/// well-formed, that is its end.
///
/// Runs in time linear in the text, and allocates nothing.
pub fn first_misfit(text: &[u8], numbers: Numbers) -> Misfit
    ensures { result.offset ≤ length text.now }
{
    if text.starts_with(BYTE_ORDER_MARK) {
        return Misfit::at(0, Expected::ValueWithoutMark);
    }
    let mut open = Open::new();
    let mut expected = Expected::Value;
    let mut at = after_blanks(text, 0);
    'tokens: while at < text.len() {
        match token_end(text, at, expected, numbers, &mut open) {
            Ok((end, next)) => {
                expected = next;
                at = after_blanks(text, end);
            }
            Err(misfit) => return misfit,
        }
    }
    Misfit::at(text.len(), expected)
}

// The end of the token that begins at an offset, and what is expected after it.
fn token_end(
    text: &[u8],
    at: usize,
    expected: Expected,
    numbers: Numbers,
    open: &mut Open,
) -> Result<(usize, Expected), Misfit>
    requires { at < length text.now }
    ensures ok { IfOk result (λ p. (at < p.0) × (p.0 ≤ length text.now)) }
    ensures misfit { IfErr result (λ m. m.offset ≤ length text.now) }
{
    match (expected, text[at]) {
        (Expected::ValueOrEndArray | Expected::CommaOrEndArray, b']') => Ok((at + 1, open.close())),
        (Expected::KeyOrEndObject | Expected::CommaOrEndObject, b'}') => Ok((at + 1, open.close())),
        (Expected::CommaOrEndArray, b',') => Ok((at + 1, Expected::Value)),
        (Expected::CommaOrEndObject, b',') => Ok((at + 1, Expected::Key)),
        (Expected::Colon, b':') => Ok((at + 1, Expected::Value)),
        (Expected::Key | Expected::KeyOrEndObject, b'"') => Ok((
            string_end(text, at)?,
            Expected::Colon,
        )),
        (Expected::Value | Expected::ValueOrEndArray, first) => value_end(
            text, at, first, expected, numbers, open,
        ),
        _ => Err(Misfit::at(at, expected)),
    }
}

// The end of a value, or of the bracket that begins one.
fn value_end(
    text: &[u8],
    at: usize,
    first: u8,
    expected: Expected,
    numbers: Numbers,
    open: &mut Open,
) -> Result<(usize, Expected), Misfit>
    requires { at < length text.now }
    ensures ok { IfOk result (λ p. (at < p.0) × (p.0 ≤ length text.now)) }
    ensures misfit { IfErr result (λ m. m.offset ≤ length text.now) }
{
    let misfit = Misfit::at(at, expected);
    let end = match first {
        b'[' => return begin(text, at, open, Container::Array, Expected::ValueOrEndArray),
        b'{' => return begin(text, at, open, Container::Object, Expected::KeyOrEndObject),
        b'"' => string_end(text, at)?,
        b'-' | b'0'..=b'9' => number_end(text, at, numbers)?,
        b't' => word_end(text, at, b"true", misfit)?,
        b'f' => word_end(text, at, b"false", misfit)?,
        b'n' => word_end(text, at, b"null", misfit)?,
        _ => return Err(misfit),
    };
    Ok((end, open.after_value()))
}

// What follows the bracket that begins an array or an object.
fn begin(
    text: &[u8],
    at: usize,
    open: &mut Open,
    container: Container,
    inner: Expected,
) -> Result<(usize, Expected), Misfit>
    requires { at < length text.now }
    ensures ok { IfOk result (λ p. (at < p.0) × (p.0 ≤ length text.now)) }
    ensures misfit { IfErr result (λ m. m.offset ≤ length text.now) }
{
    if open.begin(container) {
        Ok((at + 1, inner))
    } else {
        Err(Misfit::at(at, Expected::Value))
    }
}

// The end of a word that a value is, or else the misfit.
fn word_end(text: &[u8], at: usize, word: &[u8], misfit: Misfit) -> Result<usize, Misfit>
    requires at { at ≤ length text.now }
    requires word { 0 < length word.now }
    ensures ok { IfOk result (λ end. (at < end) × (end ≤ length text.now)) }
    ensures misfit { IfErr result (λ m. m ≡ misfit) }
{
    if text[at..].starts_with(word) {
        Ok(at + word.len())
    } else {
        Err(misfit)
    }
}

// The offset of the next byte that is no blank, or the end.
fn after_blanks(text: &[u8], from: usize) -> usize
    requires { from ≤ length text.now }
    ensures from { from ≤ result }
    ensures within { result ≤ length text.now }
{
    let rest = &text[from..];
    match rest
        .iter()
        .position(|b| !matches!(*b, b' ' | b'\t' | b'\n' | b'\r'))
    {
        Some(blanks) => from + blanks,
        None => text.len(),
    }
}
