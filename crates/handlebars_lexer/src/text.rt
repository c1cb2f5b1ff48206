//! Texts: what a source holds up to the next tag, and what it is unescaped to.

ghost use Rattle.std.specs.Prelude.{◌≡◌, ◌≢◌, ◌+◌, ◌-◌, ◌<◌, ◌≤◌, ◌++◌, ◌==◌, IfOk, length, take, drop, slice_index, string_bytes, true, false, if◌then◌else◌};
ghost use Rattle.std.specs.List.{before_first, position_or_len};
ghost use Rattle.handlebars_base.specs.Bytes.{left_brace};
ghost use Rattle.handlebars_lexer.specs.Text.{IsText, backslashes, starts_with_two, braces, before_braces};
ghost use Rattle.handlebars_lexer.specs.TextReading.{GoesOn, Ends, ends_with_backslash, clear_len};
ghost use Rattle.handlebars_lexer.specs.TextView.{braces_of};

use std::alloc::{AllocError, Global};

/// How many opening braces end a text, unless they are escaped: in a raw block four, and elsewhere two.
#[derive(Clone, Copy)]
pub enum Braces {
    Two,
    Four,
}

/// The text at the start of a source: its unescaped form, its token, and what follows it.
#[derive(Drop)]
pub struct TextPrefix<'a> {
    pub unescaped: String,
    pub token: &'a str,
    pub rest: &'a str,
}

// A chunk of a text: its unescaped form, what follows it, and whether it is the last.
#[derive(Clone, Copy)]
struct Chunk<'a> {
    unescaped: &'a str,
    rest: &'a str,
    is_last: bool,
}

/// Returns the text at the start of a source, up to `until` braces, in time linear in its token. If nothing is escaped, the
/// text is one chunk, which is copied once.
///
/// # Errors
///
/// Fails with `AllocError` if memory runs out.
pub fn text<'a>(alloc: Global, until: Braces, source: &'a str) -> Result<TextPrefix<'a>, AllocError>
    ensures whole { IfOk result (λ prefix. source.now ≡ prefix.token.now ++ prefix.rest.now) }
    ensures reads { IfOk result
        (λ prefix. IsText (braces_of until) prefix.rest.now prefix.token.now (string_bytes prefix.unescaped)) }
{
    let chunk = next_chunk(until, source);
    if !chunk.is_last {
        return text_by_chunks(alloc, until, source);
    }
    let (token, rest) = source.split_at(source.len() - chunk.rest.len());
    let unescaped = String::from_str(alloc, chunk.unescaped)?;
    Ok(TextPrefix {
        unescaped,
        token,
        rest,
    })
}

// The text at the start of a source, gathered chunk by chunk, for a text in which something is escaped.
#[inline(never)]
fn text_by_chunks<'a>(
    alloc: Global,
    until: Braces,
    source: &'a str,
) -> Result<TextPrefix<'a>, AllocError>
    ensures whole { IfOk result (λ prefix. source.now ≡ prefix.token.now ++ prefix.rest.now) }
    ensures reads { IfOk result
        (λ prefix. IsText (braces_of until) prefix.rest.now prefix.token.now (string_bytes prefix.unescaped)) }
{
    let mut unescaped = String::new(alloc);
    let mut left = source;
    'chunks: loop {
        let chunk = next_chunk(until, left);
        unescaped.push_str(chunk.unescaped)?;
        left = chunk.rest;
        if chunk.is_last {
            let (token, rest) = source.split_at(source.len() - left.len());
            return Ok(TextPrefix {
                unescaped,
                token,
                rest,
            });
        }
    }
}

// The next chunk of a text.
#[inline(always)]
fn next_chunk<'a>(until: Braces, source: &'a str) -> Chunk<'a>
    ensures on { result.is_last ≡ false → GoesOn (braces_of until) source.now result.unescaped.now result.rest.now }
    ensures shorter { result.is_last ≡ false → length result.rest.now < length source.now }
    ensures last { result.is_last ≡ true → Ends (braces_of until) source.now result.unescaped.now result.rest.now }
{
    let (clear, marks) = source.split_at(clear_len(until, source.as_bytes()));
    let run = backslashes(marks.as_bytes());
    if run == 0 {
        Chunk {
            unescaped: clear,
            rest: marks,
            is_last: true,
        }
    } else if clear.is_empty() {
        escape(until, marks, run)
    } else {
        Chunk {
            unescaped: clear,
            rest: marks,
            is_last: false,
        }
    }
}

// The chunk that begins with backslashes before braces. One of the backslashes is dropped: it escapes the braces, or is the
// first of several.
#[inline(never)]
fn escape<'a>(until: Braces, source: &'a str, run: usize) -> Chunk<'a>
    requires some { run ≢ 0 }
    requires run { run ≡ backslashes source.now }
    requires marks { before_braces (braces_of until) source.now ≡ true }
    ensures on { result.is_last ≡ false → GoesOn (braces_of until) source.now result.unescaped.now result.rest.now }
    ensures shorter { result.is_last ≡ false → length result.rest.now < length source.now }
    ensures last { result.is_last ≡ true → Ends (braces_of until) source.now result.unescaped.now result.rest.now }
{
    let (_dropped, more) = split_after(source, 1);
    if run == 1 {
        let (unescaped, rest) = split_after(more, escaped_len(more.as_bytes()));
        Chunk {
            unescaped,
            rest,
            is_last: false,
        }
    } else {
        let (unescaped, rest) = split_after(more, run - 1);
        Chunk {
            unescaped,
            rest,
            is_last: true,
        }
    }
}

// How many of the braces at the start one backslash escapes.
fn escaped_len(text: &[u8]) -> usize
    requires { 2 ≤ length text.now }
    ensures { result ≡ if starts_with_two (drop 2 text.now) then 4 else 2 }
{
    if starts_with_two(tail(text, 2)) { 4 } else { 2 }
}

// Splits a text after an ASCII byte.
fn split_after<'a>(text: &'a str, len: usize) -> (&'a str, &'a str)
    requires some { 0 < len }
    requires within { len ≤ length text.now }
    requires ascii { slice_index text.now (len - 1) < 128 }
    ensures prefix { result.0.now ≡ take len text.now }
    ensures back { result.1.now ≡ drop len text.now }
{
    text.split_at(len)
}

fn tail(text: &[u8], at: usize) -> &[u8]
    requires { at ≤ length text.now }
    ensures { result.now ≡ drop at text.now }
{
    text.split_at(at).1
}

// The number of bytes before the next braces and the backslashes directly before these. All bytes before the next single brace
// are passed at once, unless they end with a backslash.
fn clear_len(until: Braces, text: &[u8]) -> usize
    ensures { result ≡ clear_len (braces_of until) text.now }
{
    let prefix = before_brace(text);
    if ends_with_backslash(prefix) {
        clear_from(until, text, 0)
    } else {
        clear_from(until, text, prefix.len())
    }
}

// What precedes the next opening brace, or the whole text.
fn before_brace(text: &[u8]) -> &[u8]
    ensures { result.now ≡ before_first (λ b. b == left_brace) text.now }
{
    text.split_at(brace_len(text)).0
}

// The number of bytes before the next opening brace. A loop over the bytes alone costs less than a search of std in texts as
// short as most.
fn brace_len(text: &[u8]) -> usize
    ensures len { result ≡ position_or_len (λ b. b == left_brace) text.now }
    ensures within { result ≤ length text.now }
{
    let mut n = 0;
    'others: while n < text.len() && text[n] != b'{' {
        n += 1;
    }
    n
}

fn ends_with_backslash(text: &[u8]) -> bool
    ensures { result ≡ ends_with_backslash text.now }
{
    match text {
        [.., last] => *last == b'\\',
        [] => false,
    }
}

// How many bytes are clear, where it is known that the first `from` bytes are.
fn clear_from(until: Braces, text: &[u8], from: usize) -> usize
    requires within { from ≤ length text.now }
    requires clear { clear_len (braces_of until) text.now ≡ from + clear_len (braces_of until) (drop from text.now) }
    ensures { result ≡ clear_len (braces_of until) text.now }
{
    let mut clear = from;
    let mut at = from;
    'bytes: while at < text.len() {
        if has_braces(until, tail(text, at)) {
            return clear;
        }
        if text[at] != b'\\' {
            clear = at + 1;
        }
        at += 1;
    }
    at
}

fn backslashes(text: &[u8]) -> usize
    ensures { result ≡ backslashes text.now }
{
    let mut n = 0;
    'run: while n < text.len() && text[n] == b'\\' {
        n += 1;
    }
    n
}

fn has_braces(until: Braces, text: &[u8]) -> bool
    ensures { result ≡ braces (braces_of until) text.now }
{
    match until {
        Braces::Two => starts_with_two(text),
        Braces::Four => starts_with_two(text) && starts_with_two(tail(text, 2)),
    }
}

fn starts_with_two(text: &[u8]) -> bool
    ensures { result ≡ starts_with_two text.now }
{
    match text {
        [b'{', b'{', ..] => true,
        _ => false,
    }
}
