//! The iterations of a value, each of which is one of its members.

ghost use Rattle.std.specs.Prelude.{◌≡◌};
ghost use Rattle.serde_json.specs.Data.{array, object};
ghost use Rattle.serde_json.specs.View.{items_view, members_view, view};
ghost use Rattle.handlebars_helpers.specs.Iterations.{iterations_of};
ghost use Rattle.handlebars_helpers.specs.View.{iterations_left};
ghost use Rattle.handlebars_layers.specs.Members.{AllKeyed, AllMembers, has_keys};

use handlebars_base::json::value::Json;
use handlebars_helpers::each_iterations::Iterations;
use serde_json::Map;

/// Returns the iterations of a value: those of its items or members; any other value has none. The name of each leads from the
/// value to its member.
pub fn iterations_of<'h>(value: &'h Json) -> Iterations<'h>
    ensures iterations { iterations_left result ≡ iterations_of (view value.now) }
    ensures members { AllMembers (view value.now) (iterations_of (view value.now)) }
    ensures keyed { AllKeyed (has_keys (view value.now)) (iterations_of (view value.now)) }
{
    match value {
        Json::Array(items) => iterations_of_items(items),
        Json::Object(members) => iterations_of_members(members),
        _ => Iterations::of(value),
    }
}

// Returns the iterations of an array. It has fewer than 2^64 items, so the digits of each index lead to its item.
fn iterations_of_items<'h>(items: &'h Vec<Json>) -> Iterations<'h>
    ensures iterations { iterations_left result ≡ iterations_of (array (items_view items.now.items)) }
    ensures members { AllMembers (array (items_view items.now.items)) (iterations_of (array (items_view items.now.items))) }
{
    Iterations::of_items(items)
}

// Returns the iterations of an object. `Map::len` promises that keys ascend, so each occurs once; it is called for that promise.
fn iterations_of_members<'h>(members: &'h Map<String, Json>) -> Iterations<'h>
    ensures iterations { iterations_left result ≡ iterations_of (object (members_view members.now.entries)) }
    ensures members { AllMembers (object (members_view members.now.entries))
        (iterations_of (object (members_view members.now.entries))) }
{
    let _count = members.len();
    Iterations::of_members(members)
}
