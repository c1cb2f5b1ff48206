//! The numbers of a text.

ghost use Rattle.std.specs.Prelude.{◌≤◌, ◌<◌, length, IfOk, IfErr, IsTrue};

use super::Misfit;
use crate::error::Expected;
use crate::json_number::is_refused;
use crate::json_text::Numbers;

/// Returns the end of the number that begins at an offset, with its sign or a digit.
pub fn number_end(text: &[u8], at: usize, numbers: Numbers) -> Result<usize, Misfit>
    requires { at < length text.now }
    ensures ok { IfOk result (λ end. (at < end) × (end ≤ length text.now)) }
    ensures misfit { IfErr result (λ m. m.offset ≤ length text.now) }
{
    let whole = whole_end(text, at)?;
    let fraction = fraction_end(text, whole)?;
    let end = exponent_end(text, fraction)?;
    if ends_word(text, end) && is_refused(&text[at..end], numbers) {
        Err(Misfit::at(at, Expected::Value))
    } else {
        Ok(end)
    }
}

// Whether a number may end at an offset. If it may not, the misfit is what stands there.
fn ends_word(text: &[u8], at: usize) -> bool {
    match text.get(at) {
        Some(byte) => matches!(
            *byte,
            b' ' | b'\t' | b'\n' | b'\r' | b',' | b':' | b'[' | b']' | b'{' | b'}'
        ),
        None => true,
    }
}

// Zero stands alone: no digit follows it.
fn whole_end(text: &[u8], at: usize) -> Result<usize, Misfit>
    requires { at < length text.now }
    ensures ok { IfOk result (λ end. (at < end) × (end ≤ length text.now)) }
    ensures misfit { IfErr result (λ m. m.offset ≤ length text.now) }
{
    let first = if text[at] == b'-' { at + 1 } else { at };
    if has(text, first, b'0') {
        Ok(first + 1)
    } else {
        digits_end(text, first)
    }
}

fn fraction_end(text: &[u8], at: usize) -> Result<usize, Misfit>
    requires { at ≤ length text.now }
    ensures ok { IfOk result (λ end. (at ≤ end) × (end ≤ length text.now)) }
    ensures misfit { IfErr result (λ m. m.offset ≤ length text.now) }
{
    if has(text, at, b'.') {
        digits_end(text, at + 1)
    } else {
        Ok(at)
    }
}

fn exponent_end(text: &[u8], at: usize) -> Result<usize, Misfit>
    requires { at ≤ length text.now }
    ensures ok { IfOk result (λ end. (at ≤ end) × (end ≤ length text.now)) }
    ensures misfit { IfErr result (λ m. m.offset ≤ length text.now) }
{
    if !has(text, at, b'e') && !has(text, at, b'E') {
        return Ok(at);
    }
    let sign = at + 1;
    if has(text, sign, b'+') || has(text, sign, b'-') {
        digits_end(text, sign + 1)
    } else {
        digits_end(text, sign)
    }
}

// The end of the digits at an offset, of which there must be one.
fn digits_end(text: &[u8], from: usize) -> Result<usize, Misfit>
    requires { from ≤ length text.now }
    ensures ok { IfOk result (λ end. (from < end) × (end ≤ length text.now)) }
    ensures misfit { IfErr result (λ m. m.offset ≤ length text.now) }
{
    let rest = &text[from..];
    match rest
        .iter()
        .position(|b| !b.is_ascii_digit())
        .unwrap_or(rest.len())
    {
        0 => Err(Misfit::at(from, Expected::Digit)),
        digits => Ok(from + digits),
    }
}

fn has(text: &[u8], at: usize, byte: u8) -> bool
    ensures { IsTrue result → at < length text.now }
{
    at < text.len() && text[at] == byte
}
