//! Equality of values.

ghost use Rattle.std.specs.Prelude.{◌≡◌};
ghost use Rattle.serde_json.specs.View.{view, number_view, items_view, members_view};
ghost use Rattle.serde_json.specs.Find.{as_integer};
ghost use Rattle.handlebars_base.specs.Equal.{equals, is_null, items_equal, members_equal, number_equals};

use crate::json::value::Json;
use serde_json::{Map, Number};

/// Returns whether two values are of the same kind and have equal parts. A number outside the range counts as null.
#[cycle(equal)]
pub fn equal(left: &Json, right: &Json) -> bool
    ensures { result ≡ equals (view left.now) (view right.now) }
{
    match left {
        Json::Null => is_null(right),
        Json::Bool(x) => match right.as_bool() {
            Some(y) => *x == y,
            None => false,
        },
        Json::Number(n) => number_equals(n, right),
        Json::String(s) => match right.as_str() {
            Some(t) => s.as_str() == t,
            None => false,
        },
        Json::Array(items) => match right.as_array() {
            Some(others) => items_equal(items, others),
            None => false,
        },
        Json::Object(members) => match right.as_object() {
            Some(others) => members_equal(members, others),
            None => false,
        },
    }
}

// Returns whether a value is null or a number that counts as null.
fn is_null(value: &Json) -> bool
    ensures { result ≡ is_null (view value.now) }
{
    match value {
        Json::Null => true,
        Json::Number(n) => n.is_f64(),
        Json::Bool(_) | Json::String(_) | Json::Array(_) | Json::Object(_) => false,
    }
}

fn number_equals(number: &Number, value: &Json) -> bool
    ensures { result ≡ number_equals (as_integer (number_view number.now)) (view value.now) }
{
    match number.as_i128() {
        Some(x) => match value.as_number() {
            Some(other) => other.as_i128() == Some(x),
            None => false,
        },
        None => is_null(value),
    }
}

#[cycle(equal)]
fn items_equal(items: &Vec<Json>, others: &Vec<Json>) -> bool
    ensures { result ≡ items_equal (items_view items.now.items) (items_view others.now.items) }
{
    let mut rest = others.iter();
    'items: for item in items {
        match rest.next() {
            Some(other) => {
                if !equal(item, other) {
                    return false;
                }
            }
            None => return false,
        }
    }
    rest.next().is_none()
}

#[cycle(equal)]
fn members_equal(members: &Map<String, Json>, others: &Map<String, Json>) -> bool
    ensures { result ≡ members_equal (members_view members.now.entries) (members_view others.now.entries) }
{
    let mut rest = others.iter();
    'members: for (key, member) in members.iter() {
        match rest.next() {
            Some((name, other)) => {
                if key.as_str() != name.as_str() || !equal(member, other) {
                    return false;
                }
            }
            None => return false,
        }
    }
    rest.next().is_none()
}
