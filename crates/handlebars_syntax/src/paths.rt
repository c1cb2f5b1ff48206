//! Paths that can't be read.

use crate::fault::{Fault, Finding};
use handlebars_base::json::path::marks::after_byte;
use handlebars_expressions::expression::close_name_at;

/// Returns what is wrong with the path that seems to be at the start of a text.
pub fn wrong_path(found: &str) -> Option<Finding<'_>> {
    if found.starts_with('[') || found.starts_with('\'') {
        return None;
    }
    let (path, rest) = close_name_at(found);
    if path.is_empty() {
        return None;
    }
    if let Some(after) = after_byte(b'[', rest) {
        return indexed(path, rest, after);
    }
    match path.strip_prefix('.') {
        Some(name) if !name.is_empty() && !name.starts_with('.') && !name.starts_with('/') => {
            Some(Finding::at(Fault::LeadingDot(name), found, path.len()))
        }
        _ => dangling(path, rest),
    }
}

// A path with an index in brackets after it.
fn indexed<'a>(path: &'a str, rest: &'a str, after: &'a str) -> Option<Finding<'a>> {
    let (index, _) = after.split_once(']')?;
    Some(Finding::at(
        Fault::Index(path, index),
        rest,
        index.len().saturating_add(2),
    ))
}

// A path that ends with a separator.
fn dangling<'a>(path: &'a str, rest: &'a str) -> Option<Finding<'a>> {
    let whole = match path.strip_suffix('/') {
        Some(before) => before,
        None => path.trim_end_matches('.'),
    };
    let len = path.len().saturating_sub(whole.len());
    if whole.is_empty() || len == 0 {
        return None;
    }
    Some(Finding {
        fault: Fault::DanglingDot(whole),
        left: rest.len().saturating_add(len),
        len,
    })
}
