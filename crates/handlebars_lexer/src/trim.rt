//! What trimming leaves of a text beside tags.

ghost use Rattle.std.specs.Prelude.{◌≡◌, None, ◌<◌, length, true, slice_index};
ghost use Rattle.std.specs.List.{fold, list_all};
ghost use Rattle.handlebars_base.specs.Bytes.{newline, is_white};
ghost use Rattle.handlebars_base.specs.Texts.{starts, after_byte};
ghost use Rattle.handlebars_lexer.specs.TextView.{braces_of};
ghost use Rattle.handlebars_lexer.specs.Options.{Options};
ghost use Rattle.handlebars_lexer.specs.Trim.{is_blank, is_break, is_fresh_after, breaks, is_ended, dark_len, before_blanks, last_blanks, no_control, control_at, braces_after, after_blanks, after_break, trimmed_start, drops_blanks, trimmed_end, trimmed, has_element};
ghost use Rattle.handlebars_lexer.specs.TrimView.{control_view};

use crate::text::Braces;
use handlebars_base::json::path::marks::{after_byte, is_white};

/// What a tag does to the texts beside it: whether it is standalone on its line, or may be so; the blanks directly before it;
/// whether it has a tilde on its left and on its right; whether the text of a raw block follows it; and whether the blanks may
/// be its indentation.
#[derive(Clone, Copy)]
pub struct WhitespaceControl<'s> {
    pub standalone: bool,
    pub blanks: &'s str,
    pub left: bool,
    pub right: bool,
    pub is_raw: bool,
    pub takes_blanks: bool,
}

/// Returns the whitespace control at the start and at the end of a source.
pub fn no_control() -> WhitespaceControl<'static>
    ensures { control_view result ≡ no_control }
{
    WhitespaceControl {
        standalone: false,
        blanks: "",
        left: false,
        right: false,
        is_raw: false,
        takes_blanks: false,
    }
}

/// Returns the whitespace control of a tag before `rest`, on a line that is `fresh` or not.
///
/// `tag` holds what is known whatever else is on the line: whether the tag may be standalone, the blanks before it, its tildes,
/// whether it opens a raw block, and whether the blanks may be its indentation.
pub fn control_at<'s>(fresh: bool, tag: WhitespaceControl<'s>, rest: &str) -> WhitespaceControl<'s>
    ensures { control_view result ≡ control_at fresh (control_view tag.entry) rest.now }
{
    WhitespaceControl {
        standalone: tag.standalone && fresh && is_ended(rest),
        blanks: tag.blanks,
        left: tag.left,
        right: tag.right,
        is_raw: tag.is_raw,
        takes_blanks: tag.takes_blanks,
    }
}

/// Returns how many braces end the text after a tag.
pub fn braces_after(control: WhitespaceControl<'_>) -> Braces
    ensures { braces_of result ≡ braces_after (control_view control.entry) }
{
    if control.is_raw {
        Braces::Four
    } else {
        Braces::Two
    }
}

fn is_blank(byte: u8) -> bool
    ensures { result ≡ is_blank byte }
{
    byte == b' ' || byte == b'\t'
}

fn is_break(byte: u8) -> bool
    ensures { result ≡ is_break byte }
{
    byte == b'\n' || byte == b'\r'
}

/// Returns whether only blanks follow the last line break. `fresh` says whether this was so before the text. Of the text, only
/// its trailing blanks and the byte before them are read.
pub fn fresh_after(fresh: bool, text: &str) -> bool
    ensures { result ≡ fold is_fresh_after fresh text.now }
{
    let bytes = text.as_bytes();
    let dark = dark_len(bytes);
    if dark == 0 {
        fresh
    } else {
        is_break(bytes[dark - 1])
    }
}

/// Returns whether the line ends after a tag.
pub fn is_ended(rest: &str) -> bool
    ensures { result ≡ is_ended rest.now }
{
    rest.is_empty() || breaks(rest)
}

fn breaks(text: &str) -> bool
    ensures { result ≡ breaks text.now }
{
    starts_break(after_blanks(text))
}

fn starts_break(text: &str) -> bool
    ensures { result ≡ starts is_break text.now }
{
    match text.as_bytes() {
        [first, ..] => is_break(*first),
        [] => false,
    }
}

fn after_blanks(text: &str) -> &str
    ensures { result.now ≡ after_blanks text.now }
{
    let mut rest = text;
    'prefix: while let [first, ..] = rest.as_bytes()
        && is_blank(*first)
    {
        rest = rest.split_at(1).1;
    }
    rest
}

// The text without the line break at its start, if one is there.
fn after_break(text: &str) -> &str
    ensures { result.now ≡ after_break text.now }
{
    match after_byte(b'\n', text) {
        Some(rest) => rest,
        None => after_return(text),
    }
}

// The text without the `\r\n` at its start, if it is there, where no `\n` is at the start.
fn after_return(text: &str) -> &str
    requires { after_byte newline text.now ≡ None }
    ensures { result.now ≡ after_break text.now }
{
    match after_byte(b'\r', text) {
        Some(rest) => match after_byte(b'\n', rest) {
            Some(after) => after,
            None => text,
        },
        None => text,
    }
}

// The number of bytes before the blanks at the end.
fn dark_len(bytes: &[u8]) -> usize
    ensures len { result ≡ dark_len bytes.now }
    ensures blank { result < length bytes.now → is_blank (slice_index bytes.now result) ≡ true }
{
    let mut n = bytes.len();
    'blanks: while n > 0 && is_blank(bytes[n - 1]) {
        n -= 1;
    }
    n
}

/// Returns what precedes the blanks that end a text, and the blanks.
pub fn split_blanks(text: &str) -> (&str, &str)
    ensures prefix { result.0.now ≡ before_blanks text.now }
    ensures blanks { result.1.now ≡ last_blanks text.now }
{
    text.split_at(dark_len(text.as_bytes()))
}

fn trimmed_start<'s>(control: WhitespaceControl<'_>, text: &'s str) -> &'s str
    ensures { result.now ≡ trimmed_start (control_view control.entry) text.now }
{
    if control.right {
        text.trim_start()
    } else if control.standalone {
        after_break(after_blanks(text))
    } else {
        text
    }
}

// Whether the blanks before a tag are removed. If partials are not indented, the blanks before one stay.
fn drops_blanks(prevent_indent: bool, control: WhitespaceControl<'_>) -> bool
    ensures { result ≡ drops_blanks prevent_indent (control_view control.entry) }
{
    control.standalone && !(prevent_indent && control.takes_blanks)
}

fn trimmed_end<'s>(prevent_indent: bool, text: &'s str, control: WhitespaceControl<'_>) -> &'s str
    ensures { result.now ≡ trimmed_end prevent_indent text.now (control_view control.entry) }
{
    if control.left {
        text.trim_end()
    } else if drops_blanks(prevent_indent, control) {
        split_blanks(text).0
    } else {
        text
    }
}

/// Returns what trimming leaves of a text between two tags, or between a tag and an end of the source. `text` comes without its
/// dropped backslashes.
pub fn trimmed<'s>(
    prevent_indent: bool,
    before: WhitespaceControl<'_>,
    text: &'s str,
    after: WhitespaceControl<'_>,
) -> &'s str
    ensures { (options : Options) → options.prevent_indent ≡ prevent_indent
        → result.now ≡ trimmed options (control_view before.entry) text.now (control_view after.entry) }
{
    trimmed_end(prevent_indent, trimmed_start(before, text), after)
}

/// Returns whether a text makes an element, given what precedes it and its token. A text that trimming leaves empty may make
/// one.
pub fn has_element(before: WhitespaceControl<'_>, token: &str) -> bool
    ensures { result ≡ has_element (control_view before.entry) token.now }
{
    before.is_raw || !(token.is_empty() || (before.right && is_all_white(token)))
}

fn is_all_white(text: &str) -> bool
    ensures { result ≡ list_all is_white text.now }
{
    text.as_bytes().iter().all(|byte| is_white(*byte))
}
