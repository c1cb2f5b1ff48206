//! Merges a value with the hash arguments of a partial call.

ghost use Rattle.std.specs.Prelude.{◌≡◌, IfOk, OnOk, decimal, string_bytes};
ghost use Rattle.std.specs.Char.{encode_utf8};
ghost use Rattle.std.specs.Str.{chars};
ghost use Rattle.serde_json.specs.Data.{no_members, put, string};
ghost use Rattle.serde_json.specs.View.{items_view, members_view, view};
ghost use Rattle.handlebars_scope.specs.Merged.{members_in, merge, with_characters, with_hash, with_items};
ghost use Rattle.handlebars_semantics.specs.Inclusion.{hash_data};
ghost use Rattle.handlebars_values.specs.View.{arguments_seen};

use crate::param_value::Argument;
use handlebars_base::json::value::Json;
use std::alloc::{AllocError, Global};
use std::collections::BTreeMap;

/// Merges a value with these hash arguments. Without any, returns the value. With some, returns an object with the value's
/// members, or with its items or characters by their positions. A hash argument whose value is missing counts as null.
///
/// # Errors
///
/// Fails if memory runs out.
pub(crate) fn merge_into(
    alloc: Global,
    base: Json,
    hash: &BTreeMap<&str, Argument<'_>>,
) -> Result<Json, AllocError>
    ensures { IfOk result (λ d. view d ≡ merge (view base) (hash_data (arguments_seen hash.now.entries))) }
{
    if hash.is_empty() {
        return Ok(base);
    }
    let members = members_in(alloc, base)?;
    Ok(Json::Object(with_hash(alloc, members, hash)?))
}

// Stores the values of hash arguments under their keys.
fn with_hash(
    alloc: Global,
    members: BTreeMap<String, Json>,
    hash: &BTreeMap<&str, Argument<'_>>,
) -> Result<BTreeMap<String, Json>, AllocError>
    ensures { IfOk result (λ all. members_view all.entries
        ≡ with_hash (hash_data (arguments_seen hash.now.entries)) (members_view members.entries)) }
{
    let mut all = members;
    'hash: for (key, value) in hash.iter() {
        put(&mut all, String::from_str(alloc, *key)?, value.to_json()?)?;
    }
    Ok(all)
}

// Returns the members that a value contributes.
fn members_in(alloc: Global, base: Json) -> Result<BTreeMap<String, Json>, AllocError>
    ensures { IfOk result (λ members. members_view members.entries ≡ members_in (view base)) }
{
    match base {
        Json::Object(members) => Ok(members),
        Json::Array(items) => items_by_position(alloc, items),
        Json::String(text) => characters_by_position(alloc, text.as_str()),
        Json::Null | Json::Bool(_) | Json::Number(_) => Ok(BTreeMap::new(alloc)),
    }
}

fn items_by_position(alloc: Global, items: Vec<Json>) -> Result<BTreeMap<String, Json>, AllocError>
    ensures { IfOk result (λ members. members_view members.entries ≡ with_items 0 (items_view items.items) no_members) }
{
    let mut members = BTreeMap::new(alloc);
    'items: for (index, item) in items.into_iter().enumerate() {
        put_at(alloc, &mut members, index, item)?;
    }
    Ok(members)
}

fn characters_by_position(alloc: Global, text: &str) -> Result<BTreeMap<String, Json>, AllocError>
    ensures { IfOk result (λ members. members_view members.entries
        ≡ with_characters 0 (chars text.now) no_members) }
{
    let mut members = BTreeMap::new(alloc);
    'characters: for (index, character) in text.chars().enumerate() {
        put_at(
            alloc,
            &mut members,
            index,
            character_alone(alloc, character)?,
        )?;
    }
    Ok(members)
}

// Returns a text of one character.
fn character_alone(alloc: Global, character: char) -> Result<Json, AllocError>
    ensures { IfOk result (λ d. view d ≡ string (encode_utf8 character)) }
{
    let mut text = String::new(alloc);
    text.push(character)?;
    Ok(Json::String(text))
}

// Stores a value under a position.
fn put_at(
    alloc: Global,
    members: &mut BTreeMap<String, Json>,
    position: usize,
    value: Json,
) -> Result<(), AllocError>
    ensures { OnOk result (members_view members.new.entries
        ≡ put (decimal position) (view value) (members_view members.old.entries)) }
{
    let key = format!(in alloc; "{position}")?;
    put(members, key, value)
}

fn put(members: &mut BTreeMap<String, Json>, key: String, value: Json) -> Result<(), AllocError>
    ensures { OnOk result (members_view members.new.entries
        ≡ put (string_bytes key) (view value) (members_view members.old.entries)) }
{
    members.insert(key, value)?;
    Ok(())
}
