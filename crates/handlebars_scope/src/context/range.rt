//! The range of numbers that data may contain.

ghost use Rattle.std.specs.Prelude.{◌≡◌};
ghost use Rattle.serde_json.specs.View.{view, items_view, members_view};
ghost use Rattle.serde_json.specs.Written.{has_float, items_have_float, members_have_float};

use handlebars_base::json::value::Json;
use serde_json::Map;

// Returns whether a number is outside the range. serde_json stores each such number as a float.
#[cycle(range)]
pub fn has_float(value: &Json) -> bool
    ensures { result ≡ has_float (view value.now) }
{
    match value {
        Json::Number(number) => number.is_f64(),
        Json::Array(items) => items_have_float(items),
        Json::Object(members) => members_have_float(members),
        Json::Null | Json::Bool(_) | Json::String(_) => false,
    }
}

#[cycle(range)]
fn items_have_float(items: &Vec<Json>) -> bool
    ensures { result ≡ items_have_float (items_view items.now.items) }
{
    for item in items {
        if has_float(item) {
            return true;
        }
    }
    false
}

#[cycle(range)]
fn members_have_float(members: &Map<String, Json>) -> bool
    ensures { result ≡ members_have_float (members_view members.now.entries) }
{
    for (_key, member) in members.iter() {
        if has_float(member) {
            return true;
        }
    }
    false
}
