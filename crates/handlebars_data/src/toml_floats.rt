//! The floats of a TOML text.

ghost use Rattle.std.specs.Prelude.{◌≡◌, ◌<◌, ◌≤◌, IfOk, length, string_bytes};
ghost use Rattle.std.specs.Str.{IsCharBoundary};
ghost use Rattle.handlebars_data.specs.TomlFloats.{ends_key, in_word, is_float, is_float_value, quoted_floats};
ghost use Rattle.handlebars_data.specs.TomlWords.{PushesWord};

use crate::toml_place::Place;
use std::alloc::{AllocError, Global};
use toml_parser::bytes::is_word;
use toml_parser::text::{first, skip_ws};
use toml_parser::{ParseError, Scalar, unquoted};

/// Returns a TOML text with each float in quotes, so that a reader gives its spelling. A float is a word in the place of a value.
/// The text is a TOML document.
///
/// Runs in time linear in the text.
pub(crate) fn quoted_floats(alloc: Global, text: &str) -> Result<String, AllocError>
    ensures { IfOk result (λ quoted. string_bytes quoted ≡ quoted_floats text.now) }
{
    let bytes = text.as_bytes();
    let mut quoted = String::new(alloc);
    let mut place = Place::start();
    // What was written is the text up to `copied`. The word so far begins at `word`.
    let mut copied = 0;
    let mut word = 0;
    'bytes: for at in 0..bytes.len() {
        let byte = bytes[at];
        let inside = in_word(&place, byte);
        place = place.step(byte);
        if inside {
            continue;
        }
        copied = push_word(alloc, &mut quoted, text, copied, word, at)?;
        word = at + 1;
    }
    let end = push_word(alloc, &mut quoted, text, copied, word, text.len())?;
    quoted.push_str(&text[end..])?;
    Ok(quoted)
}

// Whether a byte at a place goes on with a word.
fn in_word(place: &Place, byte: u8) -> bool
    ensures { result ≡ in_word place.now byte }
{
    place.is_between() && is_word(byte)
}

// If the word from `word` to `at` is a float, writes the text up to `at`, with the word in quotes. Returns up to where the text is
// written.
fn push_word(
    alloc: Global,
    quoted: &mut String,
    text: &str,
    copied: usize,
    word: usize,
    at: usize,
) -> Result<usize, AllocError>
    requires order { copied ≤ word }
    requires up_to { word ≤ at }
    requires within { at ≤ length text.now }
    requires start { IsCharBoundary text.now copied }
    requires word { word < at → IsCharBoundary text.now word }
    requires end { word < at → IsCharBoundary text.now at }
    ensures { IfOk result (λ now. PushesWord text.now copied word at (string_bytes quoted.old) (string_bytes quoted.new) now) }
{
    if word == at {
        return Ok(copied);
    }
    if !is_float_value(alloc, &text[word..at], &text[at..])? {
        return Ok(copied);
    }
    quoted.push_str(&text[copied..word])?;
    quoted.push_str("\"")?;
    quoted.push_str(&text[word..at])?;
    quoted.push_str("\"")?;
    Ok(at)
}

// Whether a word, which this text follows, is a value that is a float.
fn is_float_value(alloc: Global, word: &str, rest: &str) -> Result<bool, AllocError>
    ensures { IfOk result (λ b. b ≡ is_float_value word.now rest.now) }
{
    if ends_key(rest) {
        return Ok(false);
    }
    is_float(alloc, word)
}

fn is_float(alloc: Global, word: &str) -> Result<bool, AllocError>
    ensures { IfOk result (λ b. b ≡ is_float word.now) }
{
    match unquoted(alloc, word) {
        Ok((Scalar::Float(_), _)) => Ok(true),
        Ok(_) => Ok(false),
        Err(ParseError::OutOfMemory) => Err(AllocError),
        Err(ParseError::At(_, _, _)) => Ok(false),
    }
}

// Whether the word before a text is a part of a key.
fn ends_key(rest: &str) -> bool
    ensures { result ≡ ends_key rest.now }
{
    let next = first(skip_ws(rest));
    next == b'=' || next == b'.'
}
