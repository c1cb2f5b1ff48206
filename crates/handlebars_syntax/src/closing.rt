//! What isn't closed: tags, texts, parentheses, and bars.

use crate::fault::{Fault, Finding};
use crate::opening::TagKind;
use crate::range::before;
use crate::reading::Stop;
use handlebars_base::json::path::marks::{after_byte, after_white};

/// Returns what isn't closed, or is within another tag, where an expression stops. `tag` is the source from the tag on.
pub fn unclosed<'a>(kind: TagKind, tag: &'a str, stop: Stop<'a>) -> Option<Finding<'a>> {
    let found = after_white(stop.rest);
    if let Some(finding) = open_text(stop, found) {
        return Some(finding);
    }
    if let Some(finding) = tag_in_tag(kind, found) {
        return Some(finding);
    }
    if !is_closed(found) {
        return Some(not_closed(kind, tag, stop.rest));
    }
    open_parenthesis(stop, found)
}

// A text that isn't closed, or is closed by a later quote that was meant for something else.
fn open_text<'a>(stop: Stop<'a>, found: &'a str) -> Option<Finding<'a>> {
    if is_quote(found) {
        return if is_closed_text(found) {
            None
        } else {
            Some(open_text_at(found, found.len()))
        };
    }
    if is_quote(stop.last) && stop.last.contains("}}") {
        return Some(open_text_at(stop.last, stop.rest.len().saturating_add(stop.last.len())));
    }
    None
}

// The text at the start, which goes up to the end of the tag.
fn open_text_at<'a>(text: &'a str, left: usize) -> Finding<'a> {
    let inside = match text.split_once("}}") {
        Some((inside, _)) => inside.trim_end(),
        None => first_line(text),
    };
    let quote = if text.starts_with('\'') { '\'' } else { '"' };
    Finding {
        fault: Fault::OpenText(inside, quote),
        left,
        len: inside.len(),
    }
}

// Whether the quote at the start comes again before closing braces, as in `'it's'`.
fn is_closed_text(text: &str) -> bool {
    let inside = text.split_once("}}").map_or(text, |parts| parts.0);
    if inside.starts_with('"') {
        inside.trim_start_matches('"').contains('"')
    } else {
        inside.trim_start_matches('\'').contains('\'')
    }
}

fn is_quote(text: &str) -> bool {
    text.starts_with('"') || text.starts_with('\'')
}

fn first_line(text: &str) -> &str {
    text.lines().next().unwrap_or("").trim_end()
}

// A whole tag, before the end of the one that it is in.
fn tag_in_tag(kind: TagKind, found: &str) -> Option<Finding<'_>> {
    let (inner, after) = found.strip_prefix("{{")?.split_once("}}")?;
    let after = after_white(after);
    if after.starts_with("}}") || after.starts_with('~') {
        Some(Finding::at(
            Fault::TagInTag(kind, inner.trim()),
            found,
            inner.len().saturating_add(4),
        ))
    } else {
        None
    }
}

/// Whether two closing braces come before the next opening ones.
pub fn is_closed(text: &str) -> bool {
    match text.split_once("{{") {
        Some((before, _)) => before.contains("}}"),
        None => text.contains("}}"),
    }
}

/// Returns that a tag isn't closed before the rest of the source.
pub fn not_closed<'a>(kind: TagKind, tag: &'a str, rest: &'a str) -> Finding<'a> {
    let read = first_line(before(tag, rest));
    let found = after_white(rest);
    if found.starts_with('}') {
        let fault = Fault::LackingBraces(read, "}", kind.braces());
        return Finding::at(fault, found, 1);
    }
    Finding::at(Fault::NotClosed(read, kind.braces()), tag, read.len())
}

fn open_parenthesis<'a>(stop: Stop<'a>, found: &'a str) -> Option<Finding<'a>> {
    let call = stop.call?;
    if found.starts_with('}') {
        Some(Finding::at(Fault::OpenParenthesis, call, 1))
    } else {
        None
    }
}

/// Returns what is wrong after an expression that has ended: names between bars, or braces that are missing.
pub fn after_end<'a>(kind: TagKind, tag: &'a str, stop: Stop<'a>) -> Finding<'a> {
    let found = after_white(stop.rest);
    if let Some(after) = found.strip_prefix("as") {
        return bars(found, after);
    }
    let braces = match after_byte(b'~', found) {
        Some(after) => after_white(after),
        None => found,
    };
    let fewer = if braces.starts_with("}}}") {
        "}}}"
    } else if braces.starts_with("}}") {
        "}}"
    } else {
        return not_closed(kind, tag, stop.rest);
    };
    let read = first_line(before(tag, stop.rest));
    let fault = Fault::LackingBraces(read, fewer, kind.braces());
    Finding::at(fault, braces, fewer.len())
}

// Names between bars that can't be read: what is from `as` on, and what follows it.
fn bars<'a>(found: &'a str, after: &'a str) -> Finding<'a> {
    let names = after_byte(b'|', after_white(after)).unwrap_or(after);
    let up_to_braces = match names.split_once("}}") {
        Some((inside, _)) => inside,
        None => first_line(names),
    };
    let fault = match up_to_braces.split_once('|') {
        None => Fault::OpenBars(up_to_braces.trim()),
        Some((inside, _)) => match inside.split_once(',') {
            Some((first, second)) => Fault::CommaInBars(first.trim(), second.trim()),
            None => Fault::NamesInBars,
        },
    };
    let len = before(found, names)
        .len()
        .saturating_add(up_to_braces.trim_end().len());
    Finding::at(fault, found, len)
}
