//! Ranges of a source.

ghost use Rattle.std.specs.Prelude.{◌≡◌, IfOk};
ghost use Rattle.std.specs.List.{prefix_len};
ghost use Rattle.handlebars_syntax.specs.Range.{IsTagRange, LiesIn, is_in_line};

use handlebars_lexer::tag::split_tag;
use handlebars_report::Place;
use std::alloc::{AllocError, Global};
use std::ops::Range;

/// Returns the range of the tag at a position of a source, in UTF-8 bytes. Where no tag can be read, that is the rest of the
/// position's line. Line and column are 1-based, and columns count characters.
///
/// A column past the end of its line is taken as that end, a line past the end of the source as that end, and 0 as 1. Runs in
/// time linear in the source.
///
/// # Errors
///
/// Fails if memory runs out.
pub fn tag_range(
    alloc: Global,
    source: &str,
    line: usize,
    column: usize,
) -> Result<Range<usize>, AllocError>
    ensures tag { IfOk result (λ range. IsTagRange source.now line column range.start range.end) }
    ensures lies { IfOk result (λ range. LiesIn source.now range.start range.end) }
{
    let start = Place::at_position(alloc, "", source, line, column)?
        .start()
        .offset;
    let left = source.split_at(start).1;
    let end = match split_tag(alloc, left, true)? {
        Some(tag) => source.len() - tag.rest.len(),
        None => start + line_len(left.as_bytes()),
    };
    Ok(start..end)
}

// The number of bytes before the next line break, or to the end of the text.
fn line_len(text: &[u8]) -> usize
    ensures { result ≡ prefix_len is_in_line text.now }
{
    let mut n = 0;
    'line: while n < text.len() && is_in_line(text[n]) {
        n += 1;
    }
    n
}

fn is_in_line(byte: u8) -> bool
    ensures { result ≡ is_in_line byte }
{
    !(byte == b'\n' || byte == b'\r')
}

/// Returns the range of `len` bytes from where `left` bytes are left of a source. A bound past the end of the source is taken as
/// that end, and one within a character as the start of that character.
pub(crate) fn range_at(source: &str, left: usize, len: usize) -> Range<usize>
    ensures { LiesIn source.now result.start result.end }
{
    let start = source.len().saturating_sub(left);
    let end = source.floor_char_boundary(start.saturating_add(len));
    source.floor_char_boundary(start.min(end))..end
}

/// Returns what is before the rest of a text.
pub(crate) fn before<'a>(text: &'a str, rest: &str) -> &'a str {
    text.get(..text.len().saturating_sub(rest.len()))
        .unwrap_or("")
}
