//! Why a tag can't be read.

use crate::closing::{after_end, is_closed, not_closed, unclosed};
use crate::fault::{Fault, Finding, NAME};
use crate::items::wrong_item;
use crate::opening::{Opening, TagKind, opening_of};
use crate::operators::operator;
use crate::paths::wrong_path;
use crate::range::before;
use crate::reading::read_terms;
use handlebars_base::json::path::marks::{after_white, symbols};
use handlebars_expressions::expression::{close_name_at, path_token};
use std::alloc::{AllocError, Global};

/// Returns why no tag can be read at the start of a source. Runs in time linear in the source.
///
/// # Errors
///
/// Fails if memory runs out.
pub fn fault_of<'a>(alloc: Global, tag: &'a str) -> Result<Finding<'a>, AllocError> {
    let opening = opening_of(tag);
    match opening.kind {
        TagKind::Comment => Ok(open_comment(tag, opening.inside)),
        TagKind::Close | TagKind::RawClose => Ok(end(opening, tag)),
        TagKind::Inverse => Ok(inverse(opening, tag)),
        _ => expression(alloc, opening, tag),
    }
}

fn open_comment<'a>(tag: &'a str, inside: &'a str) -> Finding<'a> {
    let closer = if after_white(inside).starts_with("--") {
        "--}}"
    } else {
        "}}"
    };
    Finding::at(Fault::OpenComment(closer), tag, 3)
}

// The end of a block.
fn end<'a>(opening: Opening<'a>, tag: &'a str) -> Finding<'a> {
    let (name, rest) = close_name_at(opening.inside);
    let found = after_white(rest);
    if !is_closed(found) || found.starts_with("}}") {
        return not_closed(opening.kind, tag, rest);
    }
    if found.starts_with('*') || name == "/" {
        return Finding::at(Fault::ForeignComment, tag, 4);
    }
    let more = match found.split_once("}}") {
        Some((more, _)) => more.trim_end(),
        None => found,
    };
    let (second, _) = symbols(more.trim_start_matches('#').trim_start_matches('"'));
    let written = if name.is_empty() { second } else { name };
    Finding::at(Fault::EndWithMore(written), found, more.len())
}

fn inverse<'a>(opening: Opening<'a>, tag: &'a str) -> Finding<'a> {
    if !is_closed(opening.inside) {
        return not_closed(opening.kind, tag, opening.inside);
    }
    let name = match path_token(opening.inside) {
        Some(token) => token.raw,
        None => "..",
    };
    Finding::at(Fault::InvertedSection(name), opening.inside, name.len())
}

// A tag that has an expression.
fn expression<'a>(
    alloc: Global,
    opening: Opening<'a>,
    tag: &'a str,
) -> Result<Finding<'a>, AllocError> {
    let kind = opening.kind;
    let stop = read_terms(alloc, kind, opening.inside)?;
    if stop.ended {
        return Ok(after_end(kind, tag, stop));
    }
    if stop.head.is_empty() && stop.call.is_none() && stop.items == 0 {
        return Ok(wrong_name(opening, tag));
    }
    if let Some(finding) = unclosed(kind, tag, stop) {
        return Ok(finding);
    }
    match operator(kind, stop) {
        Some(finding) => Ok(finding),
        None => Ok(wrong_item(kind, stop)),
    }
}

// A tag in which no name can be read.
fn wrong_name<'a>(opening: Opening<'a>, tag: &'a str) -> Finding<'a> {
    let found = after_white(opening.inside);
    if !is_closed(found) {
        return not_closed(opening.kind, tag, opening.inside);
    }
    match opening.kind {
        TagKind::Value | TagKind::Html => wrong_value(opening, tag, found),
        _ => wrong_block_name(opening.kind, tag, found),
    }
}

fn wrong_value<'a>(opening: Opening<'a>, tag: &'a str, found: &'a str) -> Finding<'a> {
    let (inside, _) = found.split_once("}}").unwrap_or((found, ""));
    match found.as_bytes() {
        [b'}', ..] => Finding::at(
            Fault::EmptyTag,
            tag,
            before(tag, found).len().saturating_add(2),
        ),
        [b'!', ..] if opening.tilde => {
            let text = inside.trim_start_matches('!').trim_end_matches('~').trim();
            Finding::at(
                Fault::TildedComment(text),
                tag,
                before(tag, found).len().saturating_add(1),
            )
        }
        [b'!', ..] => Finding::at(Fault::LateComment, found, 1),
        [b'=', ..] => Finding::at(Fault::Delimiters, found, inside.trim_end().len()),
        [b'%', ..] => Finding::at(Fault::PercentTag, found, 1),
        [b'"' | b'\'', ..] => quoted(opening.kind, found),
        _ => wrong_path(found).unwrap_or(no_name(found)),
    }
}

fn wrong_block_name<'a>(kind: TagKind, tag: &'a str, found: &'a str) -> Finding<'a> {
    let (inside, _) = found.split_once("}}").unwrap_or((found, ""));
    match found.as_bytes() {
        [b'}' | b'~', ..] => Finding::at(
            Fault::NameMissing(what_of(kind)),
            tag,
            before(tag, found).len(),
        ),
        [b'"' | b'\'', ..] => quoted(kind, found),
        [b'{', b'{', ..] => {
            let fault = Fault::TagInTag(kind, inside.trim_start_matches('{').trim());
            Finding::at(fault, found, inside.len().saturating_add(2))
        }
        [b'*', ..] => Finding::at(Fault::SplitSign('*'), found, 1),
        [b'>', ..] => Finding::at(Fault::SplitSign('>'), found, 1),
        [b'/', ..] => {
            let (name, _) = symbols(found.trim_start_matches('/'));
            Finding::at(
                Fault::EndWithMore(name),
                tag,
                before(tag, found).len().saturating_add(1),
            )
        }
        [b'(' | b'[', ..] => {
            let fault = Fault::NoIdentifier(kind, inside.trim_end(), "");
            Finding::at(fault, found, inside.trim_end().len())
        }
        _ => wrong_path(found).unwrap_or(no_name(found)),
    }
}

// A name in quotes.
fn quoted(kind: TagKind, found: &str) -> Finding<'_> {
    let quote = if found.starts_with('"') { '"' } else { '\'' };
    let inside = found.trim_start_matches(quote);
    let (name, _) = inside.split_once(quote).unwrap_or((inside, ""));
    Finding::at(
        Fault::QuotedName(kind, name),
        found,
        name.len().saturating_add(2),
    )
}

fn no_name(found: &str) -> Finding<'_> {
    let found_char = found.chars().next();
    let len = match found_char {
        Some(c) => c.len_utf8(),
        None => 0,
    };
    Finding::at(Fault::Expected(NAME, found_char), found, len)
}

fn what_of(kind: TagKind) -> &'static str {
    match kind {
        TagKind::Partial | TagKind::PartialBlock => "partial",
        TagKind::Decorator | TagKind::DecoratorBlock => "decorator",
        _ => "block",
    }
}
