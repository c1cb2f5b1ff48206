//! The strings of a text.

ghost use Rattle.std.specs.Prelude.{◌≤◌, ◌<◌, ◌+◌, length, IfOk, IfErr};

use super::Misfit;
use crate::error::Expected;

/// Returns the end of the string whose opening quote is at an offset.
pub fn string_end(text: &[u8], at: usize) -> Result<usize, Misfit>
    requires { at < length text.now }
    ensures ok { IfOk result (λ end. (at < end) × (end ≤ length text.now)) }
    ensures misfit { IfErr result (λ m. m.offset ≤ length text.now) }
{
    let mut next = at + 1;
    'characters: while next < text.len() {
        match text[next] {
            b'"' => return Ok(next + 1),
            b'\\' => next = escape_end(text, next)?,
            b'\n' => return Err(Misfit::at(next, Expected::Quote)),
            0..=31 => return Err(Misfit::at(next, Expected::EscapedControl)),
            _ => next += 1,
        }
    }
    Err(Misfit::at(next, Expected::Quote))
}

// The end of the escape whose backslash is at an offset.
fn escape_end(text: &[u8], at: usize) -> Result<usize, Misfit>
    requires { at < length text.now }
    ensures ok { IfOk result (λ end. (at < end) × (end ≤ length text.now)) }
    ensures misfit { IfErr result (λ m. m.offset ≤ length text.now) }
{
    let letter = at + 1;
    if letter == text.len() {
        return Err(Misfit::at(letter, Expected::Escape));
    }
    match text[letter] {
        b'"' | b'\\' | b'/' | b'b' | b'f' | b'n' | b'r' | b't' => Ok(letter + 1),
        b'u' => pair_end(text, at),
        _ => Err(Misfit::at(letter, Expected::Escape)),
    }
}

// The end of the code point whose first escape, `\u` and four digits, begins at an offset.
fn pair_end(text: &[u8], at: usize) -> Result<usize, Misfit>
    requires { at + 2 ≤ length text.now }
    ensures ok { IfOk result (λ end. (at < end) × (end ≤ length text.now)) }
    ensures misfit { IfErr result (λ m. m.offset ≤ length text.now) }
{
    let unit = code_unit(text, at + 2)?;
    let next = at + 6;
    match unit {
        0xD800..=0xDBFF => {
            if !text[next..].starts_with(b"\\u") {
                return Err(Misfit::at(next, Expected::LowSurrogate));
            }
            match code_unit(text, next + 2)? {
                0xDC00..=0xDFFF => Ok(next + 6),
                _ => Err(Misfit::at(next, Expected::LowSurrogate)),
            }
        }
        0xDC00..=0xDFFF => Err(Misfit::at(at, Expected::HighSurrogate)),
        _ => Ok(next),
    }
}

// The value of the four hexadecimal digits at an offset.
fn code_unit(text: &[u8], at: usize) -> Result<u32, Misfit>
    requires { at ≤ length text.now }
    ensures ok { IfOk result (λ _. at + 4 ≤ length text.now) }
    ensures misfit { IfErr result (λ m. m.offset ≤ length text.now) }
{
    let high = hex_byte(text, at)?;
    let low = hex_byte(text, at + 2)?;
    Ok(high * 256 + low)
}

fn hex_byte(text: &[u8], at: usize) -> Result<u32, Misfit>
    requires { at ≤ length text.now }
    ensures ok { IfOk result (λ n. (n < 256) × (at + 2 ≤ length text.now)) }
    ensures misfit { IfErr result (λ m. m.offset ≤ length text.now) }
{
    let high = hex_digit(text, at)?;
    let low = hex_digit(text, at + 1)?;
    Ok(high * 16 + low)
}

fn hex_digit(text: &[u8], at: usize) -> Result<u32, Misfit>
    requires { at ≤ length text.now }
    ensures ok { IfOk result (λ n. (n < 16) × (at < length text.now)) }
    ensures misfit { IfErr result (λ m. m.offset ≤ length text.now) }
{
    let digit = match text.get(at) {
        Some(byte) => char::from(*byte).to_digit(16),
        None => None,
    };
    digit.ok_or(Misfit::at(at, Expected::HexDigit))
}
