//! Escaping of text.

ghost use Rattle.std.specs.Prelude.{◌≡◌, ◌≤◌, [], ◌++◌, length, IfErr, IfOk, IfSome, OnOk, option_map, string_bytes};
ghost use Rattle.handlebars_base.specs.Escape.{NeedsNoEscape, entity_of, escaped};
ghost use Rattle.handlebars_base.specs.Outputs.{Written};

use crate::output::{Output, StringOutput};
use arrayvec::ArrayString;
use std::alloc::{AllocError, Global};
use std::io;

// Collects escaped text before it is written.
type Piece = ArrayString<256>;

/// Replaces the seven characters `<`, `>`, `"`, `&`, `'`, `` ` `` and `=` by HTML entities. Runs in time linear in the
/// text.
///
/// # Errors
///
/// Fails if memory runs out.
pub fn escape_html(alloc: Global, text: &str) -> Result<String, AllocError>
    ensures { IfOk result (λ s. string_bytes s ≡ escaped text.now) }
{
    let mut out = StringOutput::with_capacity(alloc, text.len())?;
    match write_escaped(&mut out, text) {
        Ok(()) => Ok(out.into_string()),
        // An output in memory fails only when memory runs out.
        Err(_) => Err(AllocError),
    }
}

/// Writes the text as `escape_html` returns it, without allocating. A text with nothing to escape is written at once.
/// Any other text is written in pieces, so that not every entity costs a write.
///
/// # Errors
///
/// Fails with the output's error if a write fails.
pub fn write_escaped<O: Output>(out: &mut O, text: &str) -> Result<(), io::Error>
    ensures written { Written (escaped text.now) (O.held out.old) result (O.held out.new) }
    ensures given { IfErr result O.may_give }
{
    let plain = plain_len(text.as_bytes());
    if plain == text.len() {
        return out.write(text);
    }
    write_marked(out, text, plain)
}

// Returns how many bytes precede the first that has an entity.
fn plain_len(bytes: &[u8]) -> usize
    ensures { NeedsNoEscape bytes.now result }
{
    for at in 0..bytes.len() {
        if entity_of(bytes[at]).is_some() {
            return at;
        }
    }
    bytes.len()
}

// Writes a text, escaped. Its first `plain` bytes have no entities.
fn write_marked<O: Output>(out: &mut O, text: &str, plain: usize) -> Result<(), io::Error>
    requires { NeedsNoEscape text.now plain }
    ensures written { Written (escaped text.now) (O.held out.old) result (O.held out.new) }
    ensures given { IfErr result O.may_give }
{
    let bytes = text.as_bytes();
    let mut piece = Piece::new();
    let mut written = 0;
    for at in plain..bytes.len() {
        if let Some(entity) = entity_of(bytes[at]) {
            let run = &text[written..at];
            if piece.remaining_capacity() < run.len() + entity.len() {
                write_after(out, &mut piece, run)?;
            } else {
                piece.push_str(run);
            }
            piece.push_str(entity);
            written = at + 1;
        }
    }
    write_after(out, &mut piece, &text[written..])
}

// Writes a piece and the text after it, and leaves the piece empty.
#[inline(never)]
fn write_after<O: Output>(out: &mut O, piece: &mut Piece, text: &str) -> Result<(), io::Error>
    ensures written { Written (piece.old.bytes ++ text.now) (O.held out.old) result (O.held out.new) }
    ensures empty { OnOk result (piece.new.bytes ≡ []) }
    ensures given { IfErr result O.may_give }
{
    out.write(piece.as_str())?;
    piece.clear();
    out.write(text)
}

// Returns the entity of a byte in an escaped text, if it has one.
#[inline(always)]
fn entity_of(byte: u8) -> Option<&'static str>
    ensures is { option_map (λ s. s.now) result ≡ entity_of byte }
    ensures short { IfSome result (λ s. length s.now ≤ 6) }
{
    match byte {
        b'<' => Some("&lt;"),
        b'>' => Some("&gt;"),
        b'"' => Some("&quot;"),
        b'&' => Some("&amp;"),
        b'\'' => Some("&#x27;"),
        b'`' => Some("&#x60;"),
        b'=' => Some("&#x3D;"),
        _ => None,
    }
}

/// Replaces the same seven characters as `escape_html` by HTML entities. Rendering uses it by default.
///
/// # Errors
///
/// Fails if memory runs out.
pub fn html_escape(alloc: Global, text: &str) -> Result<String, AllocError>
    ensures { IfOk result (λ s. string_bytes s ≡ escaped text.now) }
{
    escape_html(alloc, text)
}

/// Returns a copy of the text, for rendering without escaping.
///
/// # Errors
///
/// Fails if memory runs out.
pub fn no_escape(alloc: Global, text: &str) -> Result<String, AllocError>
    ensures { IfOk result (λ s. string_bytes s ≡ text.now) }
{
    String::from_str(alloc, text)
}
