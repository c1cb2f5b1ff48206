//! The order of values.

ghost use Rattle.std.specs.Prelude.{◌≡◌};
ghost use Rattle.serde_json.specs.View.{view};
ghost use Rattle.handlebars_base.specs.Compare.{compared, integer_of, integers_compared, spelled_digits, spelled_number, text_compared};

use crate::json::value::Json;
use std::cmp::Ordering;

/// Compares two values: numbers by value, texts by their bytes, `false` below `true`, and a number with a text by
/// the number that the text spells in decimal. Returns `None` for all other values, which have no order.
pub fn compare(left: &Json, right: &Json) -> Option<Ordering>
    ensures { result ≡ compared (view left.now) (view right.now) }
{
    match left {
        Json::Bool(x) => match right.as_bool() {
            Some(y) => Some(x.cmp(&y)),
            None => None,
        },
        Json::Number(n) => compare_integers(n.as_i128(), integer_of(right)),
        Json::String(text) => compare_text(text.as_str(), right),
        Json::Null | Json::Array(_) | Json::Object(_) => None,
    }
}

fn compare_text(text: &str, value: &Json) -> Option<Ordering>
    ensures { result ≡ text_compared text.now (view value.now) }
{
    match value.as_str() {
        Some(other) => Some(text.cmp(other)),
        None => compare_integers(spelled_number(text), integer_of(value)),
    }
}

fn compare_integers(left: Option<i128>, right: Option<i128>) -> Option<Ordering>
    ensures { result ≡ integers_compared left right }
{
    match (left, right) {
        (Some(x), Some(y)) => Some(x.cmp(&y)),
        _ => None,
    }
}

// Returns the integer that a number is, or that a text spells.
fn integer_of(value: &Json) -> Option<i128>
    ensures { result ≡ integer_of (view value.now) }
{
    match value {
        Json::Number(n) => n.as_i128(),
        Json::String(text) => spelled_number(text.as_str()),
        Json::Null | Json::Bool(_) | Json::Array(_) | Json::Object(_) => None,
    }
}

fn spelled_number(text: &str) -> Option<i128>
    ensures { result ≡ spelled_number text.now }
{
    match text.strip_prefix('-') {
        Some(digits) => {
            let n = spelled_digits(digits)?;
            if 0 < n && n <= 1 << 63 {
                Some(-(n as i128))
            } else {
                None
            }
        }
        None => match spelled_digits(text) {
            Some(n) => Some(n as i128),
            None => None,
        },
    }
}

// Rejects a zero before another digit, and a plus.
fn spelled_digits(text: &str) -> Option<u64>
    ensures { result ≡ spelled_digits text.now }
{
    let bytes = text.as_bytes();
    if bytes.is_empty() || bytes[0] == b'+' {
        return None;
    }
    if bytes[0] == b'0' {
        return if bytes.len() == 1 { Some(0) } else { None };
    }
    text.parse::<u64>().ok()
}
