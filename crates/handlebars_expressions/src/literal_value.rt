//! The values of literals, by JSON.

ghost use Rattle.std.specs.Prelude.{◌≡◌, ◌==◌, ◌<◌, ◌++◌, ◌∷◌, [], Some, IfOk, OnOk, IfSome, option_and_then, string_bytes};
ghost use Rattle.std.specs.List.{list_all};
ghost use Rattle.std.specs.Option.{option_map};
ghost use Rattle.serde_json.specs.Data.{number, string, unsigned};
ghost use Rattle.serde_json.specs.Read.{read as read_text};
ghost use Rattle.serde_json.specs.View.{view};
ghost use Rattle.handlebars_base.specs.Bytes.{double_quote, single_quote};
ghost use Rattle.handlebars_base.specs.Texts.{starts, after_byte};
ghost use Rattle.handlebars_expressions.specs.CommonJson.{has_leading_zero, is_plain_byte, is_not_single};
ghost use Rattle.handlebars_expressions.specs.LiteralValue.{plain_singles, escaped_doubles, double_quoted};
ghost use Rattle.handlebars_expressions.specs.LiteralValueReading.{before, literal_value_of};

use crate::literal::{literal_at, number_of};
use handlebars_base::json::path::marks::after_byte;
use handlebars_base::json::value::Json;
use std::alloc::{AllocError, Global};

/// Returns the value of the literal that a text is. Returns `None` if the text is no literal, one of its numbers is out of
/// range, or JSON rejects it.
///
/// # Errors
///
/// Fails with `AllocError` if memory runs out.
pub fn literal_value(alloc: Global, raw: &str) -> Result<Option<Json>, AllocError>
    ensures { IfOk result (λ read. option_map view read ≡ literal_value_of raw.now) }
{
    match common_value(alloc, raw)? {
        Some(value) => Ok(Some(value)),
        None => scanned_value(alloc, raw),
    }
}

/// The value of a whole number, a plain text in quotes or a word, which needs no scan and no JSON reader.
fn common_value(alloc: Global, raw: &str) -> Result<Option<Json>, AllocError>
    ensures { IfOk result (λ read. IfSome read (λ value. literal_value_of raw.now ≡ Some (view value))) }
{
    if let Some(n) = whole_number(raw) {
        return Ok(Some(Json::Number(n.into())));
    }
    if let Some(inner) = plain_text(raw) {
        return Ok(Some(text_value(alloc, inner)?));
    }
    Ok(word_value(raw))
}

#[tactic(auto, unfolding(crate::specs::LiteralValueReading::literal_value_of))]
fn scanned_value(alloc: Global, raw: &str) -> Result<Option<Json>, AllocError>
    ensures { IfOk result (λ read. option_map view read ≡ literal_value_of raw.now) }
{
    let Some(token) = literal_at(alloc, raw)? else {
        return Ok(None);
    };
    if !(token.in_range && token.rest.is_empty()) {
        return Ok(None);
    }
    match unquoted(token.raw) {
        Some(inner) => read_quoted(alloc, inner),
        None => read_json(alloc, token.raw),
    }
}

/// Whether a zero precedes other digits, which JSON rejects.
fn has_leading_zero(text: &str) -> bool
    ensures { result ≡ has_leading_zero text.now }
{
    match text.as_bytes() {
        [first, _, ..] => *first == b'0',
        _ => false,
    }
}

fn whole_number(text: &str) -> Option<u64>
    ensures { IfSome result (λ n. literal_value_of text.now ≡ Some (number (unsigned n))) }
{
    if has_leading_zero(text) {
        return None;
    }
    number_of(text)
}

fn word_value(text: &str) -> Option<Json>
    ensures { IfSome result (λ value. literal_value_of text.now ≡ Some (view value)) }
{
    match text {
        "true" => Some(Json::Bool(true)),
        "false" => Some(Json::Bool(false)),
        "null" => Some(Json::Null),
        _ => None,
    }
}

fn is_plain_byte(byte: u8) -> bool
    ensures { result ≡ is_plain_byte byte }
{
    byte != b'"' && byte != b'\\' && byte >= b' '
}

/// Whether JSON writes the text between double quotes unchanged.
fn is_plain(text: &str) -> bool
    ensures { result ≡ list_all is_plain_byte text.now }
{
    text.as_bytes().iter().all(|byte| is_plain_byte(*byte))
}

fn lacks_single(text: &str) -> bool
    ensures { result ≡ list_all is_not_single text.now }
{
    text.as_bytes().iter().all(|byte| *byte != b'\'')
}

fn inside_doubles(text: &str) -> Option<&str>
    ensures { IfSome result (λ inner. text.now ≡ double_quote ∷ (inner.now ++ double_quote ∷ [])) }
{
    text.strip_prefix('"')?.strip_suffix('"')
}

fn inside_singles(text: &str) -> Option<&str>
    ensures { IfSome result (λ inner. text.now ≡ single_quote ∷ (inner.now ++ single_quote ∷ [])) }
{
    text.strip_prefix('\'')?.strip_suffix('\'')
}

fn plain_in_doubles(text: &str) -> Option<&str>
    ensures { IfSome result (λ inner. literal_value_of text.now ≡ Some (string inner.now)) }
{
    let inner = inside_doubles(text)?;
    if is_plain(inner) { Some(inner) } else { None }
}

fn plain_in_singles(text: &str) -> Option<&str>
    ensures { IfSome result (λ inner. literal_value_of text.now ≡ Some (string inner.now)) }
{
    let inner = inside_singles(text)?;
    if is_plain(inner) && lacks_single(inner) {
        Some(inner)
    } else {
        None
    }
}

/// What is between quotes, if it is plain.
fn plain_text(text: &str) -> Option<&str>
    ensures { IfSome result (λ inner. literal_value_of text.now ≡ Some (string inner.now)) }
{
    if starts_single(text) {
        plain_in_singles(text)
    } else {
        plain_in_doubles(text)
    }
}

fn text_value(alloc: Global, text: &str) -> Result<Json, AllocError>
    ensures { IfOk result (λ value. view value ≡ string text.now) }
{
    Ok(Json::String(String::from_str(alloc, text)?))
}

/// The reader sets up large buffers for each text.
fn read_json(alloc: Global, text: &str) -> Result<Option<Json>, AllocError>
    ensures { IfOk result (λ read. option_map view read ≡ read_text text.now) }
{
    match Json::from_str(alloc, text) {
        Ok(value) => Ok(Some(value)),
        Err(cause) => {
            if cause.is_memory() {
                Err(AllocError)
            } else {
                Ok(None)
            }
        }
    }
}

fn read_quoted(alloc: Global, inner: &str) -> Result<Option<Json>, AllocError>
    ensures { IfOk result (λ read. option_map view read ≡ read_text (double_quoted inner.now)) }
{
    let text = double_quoted(alloc, inner)?;
    read_json(alloc, text.as_str())
}

/// What precedes a mark, if the mark ends the text.
#[tactic(auto, unfolding(crate::specs::LiteralValueReading::before))]
fn before(mark: u8, text: &str) -> Option<&str>
    requires { mark < 128 }
    ensures { option_map (λ prefix. prefix.now) result ≡ before mark text.now }
{
    match text.as_bytes() {
        [.., last] if *last == mark => Some(&text[..text.len() - 1]),
        _ => None,
    }
}

fn unquoted(text: &str) -> Option<&str>
    ensures { option_map (λ inner. inner.now) result ≡ option_and_then (before single_quote) (after_byte single_quote text.now) }
{
    before(b'\'', after_byte(b'\'', text)?)
}

fn starts_single(text: &str) -> bool
    ensures { result ≡ starts (λ byte. byte == single_quote) text.now }
{
    match text.as_bytes() {
        [first, ..] => *first == b'\'',
        [] => false,
    }
}

/// Drops the backslash before each single quote.
fn plain_singles(alloc: Global, text: &str) -> Result<String, AllocError>
    ensures { IfOk result (λ plain. string_bytes plain ≡ plain_singles text.now) }
{
    let mut plain = String::new(alloc);
    let mut rest = text;
    'pieces: while let Some((prefix, after)) = rest.split_once('\\') {
        plain.push_str(prefix)?;
        if !starts_single(after) {
            plain.push_str("\\")?;
        }
        rest = after;
    }
    plain.push_str(rest)?;
    Ok(plain)
}

/// Puts a backslash before each double quote.
fn push_escaped(text: &str, out: &mut String) -> Result<(), AllocError>
    ensures { OnOk result (string_bytes out.new ≡ string_bytes out.old ++ escaped_doubles text.now) }
{
    let mut rest = text;
    'pieces: while let Some((prefix, after)) = rest.split_once('"') {
        out.push_str(prefix)?;
        out.push_str("\\\"")?;
        rest = after;
    }
    out.push_str(rest)?;
    Ok(())
}

fn double_quoted(alloc: Global, inner: &str) -> Result<String, AllocError>
    ensures { IfOk result (λ text. string_bytes text ≡ double_quoted inner.now) }
{
    let plain = plain_singles(alloc, inner)?;
    let mut text = String::new(alloc);
    text.push_str("\"")?;
    push_escaped(plain.as_str(), &mut text)?;
    text.push_str("\"")?;
    Ok(text)
}
