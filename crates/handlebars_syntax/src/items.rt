//! What is found where an item of an expression was expected.

use crate::fault::{Fault, Finding};
use crate::opening::TagKind;
use crate::operators::{form_of, is_block};
use crate::paths::wrong_path;
use crate::reading::Stop;
use handlebars_base::json::path::marks::{after_byte, after_white, starts_white, symbols};
use handlebars_expressions::expression::close_name_at;

/// Returns what is wrong where an expression stops after its name.
pub fn wrong_item<'a>(kind: TagKind, stop: Stop<'a>) -> Finding<'a> {
    if let Some(finding) = directly_after(kind, stop) {
        return finding;
    }
    let found = after_white(stop.rest);
    if !stop.takes_items && starts_white(stop.rest) {
        return after_path(kind, stop, found);
    }
    match marked(stop, found) {
        Some(finding) => finding,
        None => match keyed(kind, found) {
            Some(finding) => finding,
            None => wrong_path(found).unwrap_or(unexpected(stop, found)),
        },
    }
}

// What follows a path or another item with no blank between them.
fn directly_after<'a>(kind: TagKind, stop: Stop<'a>) -> Option<Finding<'a>> {
    let rest = stop.rest;
    if let Some(after) = after_byte(b'(', rest) {
        return called(kind, stop, after);
    }
    if rest.starts_with('.') || rest.starts_with('/') {
        let (steps, _) = close_name_at(rest);
        let fault = Fault::NoIdentifier(kind, stop.head, steps);
        return Some(Finding::at(fault, rest, steps.len()));
    }
    None
}

// What follows a path that takes no parameters.
fn after_path<'a>(kind: TagKind, stop: Stop<'a>, found: &'a str) -> Finding<'a> {
    let (parameters, _) = found.split_once("}}").unwrap_or((found, ""));
    let parameters = parameters.trim_end();
    let fault = match stop.head.strip_prefix('@') {
        Some(name) if is_block(name) => Fault::AtBlock(name, parameters),
        _ => Fault::PathWithParameters(kind, stop.head, parameters),
    };
    Finding::at(fault, found, parameters.len())
}

// A name with parentheses after it.
fn called<'a>(kind: TagKind, stop: Stop<'a>, after: &'a str) -> Option<Finding<'a>> {
    let (arguments, _) = after.split_once(')')?;
    let len = arguments.len().saturating_add(2);
    let fault = match stop.last.rsplit_once('.') {
        Some((_, method)) => Fault::Method(method),
        None => {
            let alone = stop.items == 0 && stop.call.is_none();
            let form = form_of(kind, if alone { "" } else { stop.head }, alone);
            Fault::CallSyntax(form, stop.last, arguments.trim())
        }
    };
    Some(Finding::at(fault, stop.rest, len))
}

// A mark that no item begins with.
fn marked<'a>(stop: Stop<'a>, found: &'a str) -> Option<Finding<'a>> {
    let fault = match found.as_bytes() {
        [b',', ..] => Fault::Comma(stop.last),
        [b';', ..] => Fault::Semicolon,
        [b')', ..] => Fault::StrayParenthesis,
        [b'`', ..] => Fault::Backquote,
        [b'{', ..] => return Some(unquoted_key(found)),
        [b'[', ..] => Fault::BrokenList,
        _ => return None,
    };
    Some(Finding::at(fault, found, 1))
}

// `{a: 1}`.
fn unquoted_key(found: &str) -> Finding<'_> {
    let inside = after_white(found.trim_start_matches('{'));
    let (key, _) = symbols(inside);
    let name = key.trim_end_matches(':');
    if name.is_empty() {
        return Finding::at(Fault::BrokenObject, found, 1);
    }
    Finding::at(Fault::UnquotedKey(name), inside, name.len())
}

// A word that is no parameter, or a key with no value.
fn keyed<'a>(kind: TagKind, found: &'a str) -> Option<Finding<'a>> {
    let (key, after) = symbols(found);
    if key == "as" {
        return Some(names(kind, found, after_white(after)));
    }
    if !key.is_empty() && after_white(after).starts_with('=') {
        return Some(Finding::at(Fault::KeyWithoutValue(key), found, key.len()));
    }
    None
}

// `as`, where no names may be bound, or with no bars.
fn names<'a>(kind: TagKind, found: &'a str, after: &'a str) -> Finding<'a> {
    let (name, _) = symbols(after);
    let fault = if kind.binds() && !name.is_empty() {
        Fault::NoBars(name)
    } else {
        Fault::NoNamesHere(kind, name)
    };
    Finding::at(fault, found, 2)
}

fn unexpected<'a>(stop: Stop<'a>, found: &'a str) -> Finding<'a> {
    let what = if stop.call.is_some() {
        "a parameter or `)`"
    } else {
        "a parameter or `}}`"
    };
    let found_char = found.chars().next();
    let len = match found_char {
        Some(c) => c.len_utf8(),
        None => 0,
    };
    Finding::at(Fault::Expected(what, found_char), found, len)
}
