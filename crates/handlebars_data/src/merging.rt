//! Merges the data of several sources.

ghost use Rattle.std.specs.Prelude.{◌≡◌, IfOk, OnOk, option_map, string_bytes};
ghost use Rattle.serde_json.specs.Data.{object};
ghost use Rattle.serde_json.specs.Find.{get_member};
ghost use Rattle.serde_json.specs.View.{members_view, view};
ghost use Rattle.handlebars_data.specs.Merge.{merged, merged_members, with_merged, without_value};

use crate::members::put;
use serde_json::Value;
use std::alloc::AllocError;
use std::collections::BTreeMap;

/// Merges the data of two sources. Two objects are merged by key, at every depth: a key of only one of them keeps its value,
/// and under a key of both stand the two values merged. Of anything else, the value of the later source counts.
///
/// # Errors
///
/// Fails if memory runs out.
#[cycle(merge)]
pub fn merge(base: Value, over: Value) -> Result<Value, AllocError>
    ensures { IfOk result (λ d. view d ≡ merged (view base) (view over)) }
{
    match over {
        Value::Object(later) => Ok(Value::Object(merge_object(base, later)?)),
        over => Ok(over),
    }
}

#[cycle(merge)]
fn merge_object(
    base: Value,
    over: BTreeMap<String, Value>,
) -> Result<BTreeMap<String, Value>, AllocError>
    ensures { IfOk result (λ members. object (members_view members.entries) ≡ merged (view base) (object (members_view over.entries))) }
{
    match base {
        Value::Object(members) => merge_members(members, over),
        _ => Ok(over),
    }
}

#[cycle(merge)]
fn merge_members(
    base: BTreeMap<String, Value>,
    over: BTreeMap<String, Value>,
) -> Result<BTreeMap<String, Value>, AllocError>
    ensures { IfOk result (λ members. members_view members.entries
        ≡ merged_members (members_view base.entries) (members_view over.entries)) }
{
    let mut members = base;
    'over: for (key, value) in over {
        merge_member(&mut members, key, value)?;
    }
    Ok(members)
}

#[cycle(merge)]
fn merge_member(
    members: &mut BTreeMap<String, Value>,
    key: String,
    value: Value,
) -> Result<(), AllocError>
    ensures { OnOk result (members_view members.new.entries
        ≡ with_merged (string_bytes key) (view value) (members_view members.old.entries)) }
{
    match take_value(members, key.as_str()) {
        Some(earlier) => put(members, key, merge(earlier, value)?),
        None => put(members, key, value),
    }
}

// Takes the value of a key, and leaves null there.
fn take_value(members: &mut BTreeMap<String, Value>, key: &str) -> Option<Value>
    ensures value { option_map view result ≡ get_member key.now (members_view members.old.entries) }
    ensures left { members_view members.new.entries ≡ without_value key.now (members_view members.old.entries) }
{
    match members.get_mut(key) {
        Some(value) => Some(value.take()),
        None => None,
    }
}
