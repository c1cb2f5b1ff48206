//! The views of calls and of tags.

use crate::answer::Stop;
use crate::fields::{items, text, text_at};
use crate::held::{had, let_go, push};
use crate::made::scoped::given_of;
use handlebars_base::json::value::PathAndJson;
use handlebars_helpers::decorators::view::Decorator;
use handlebars_helpers::view::Helper;
use handlebars_template::template::Template;
use serde_json::Value as JsonValue;
use std::alloc::Global;
use std::borrow::CowStr;
use std::collections::BTreeMap;

/// Returns the view of a tag: its `name`, `params`, `hash` and `indent`, and this block.
pub fn decorator_of<'s>(
    alloc: Global,
    it: &'s JsonValue,
    block: Option<&'s Template>,
) -> Result<Decorator<'s>, Stop> {
    let name = CowStr::Borrowed(text(it, "name"));
    let indent = match text_at(it, "indent") {
        Some(indent) => Some(CowStr::Borrowed(indent)),
        None => None,
    };
    let (mut params, mut hash) = (Vec::new(alloc), BTreeMap::new(alloc));
    match put_given(alloc, &mut params, &mut hash, it) {
        Ok(()) => Ok(Decorator::new(name, params, hash, block, indent)),
        Err(stop) => Err(stop),
    }
}

/// Returns the view of a call: its `name`, `params` and `hash`.
pub fn helper_of<'s>(alloc: Global, it: &'s JsonValue) -> Result<Helper<'s>, Stop> {
    let name = CowStr::Borrowed(text(it, "name"));
    let (mut params, mut hash) = (Vec::new(alloc), BTreeMap::new(alloc));
    match put_given(alloc, &mut params, &mut hash, it) {
        Ok(()) => Ok(Helper::new(name, params, hash, None, None, None, false)),
        Err(stop) => Err(stop),
    }
}

fn put_given<'s>(
    alloc: Global,
    params: &mut Vec<PathAndJson<'s>>,
    hash: &mut BTreeMap<&'s str, PathAndJson<'s>>,
    it: &'s JsonValue,
) -> Result<(), Stop> {
    for param in items(it, "params") {
        push(params, given_of(alloc, param))?;
    }
    put_hash(alloc, hash, it)
}

fn put_hash<'s>(
    alloc: Global,
    hash: &mut BTreeMap<&'s str, PathAndJson<'s>>,
    it: &'s JsonValue,
) -> Result<(), Stop> {
    if let Some(members) = it.get("hash").and_then(JsonValue::as_object) {
        for (key, value) in members.iter() {
            put_hash_pair(hash, key.as_str(), given_of(alloc, value))?;
        }
    }
    Ok(())
}

fn put_hash_pair<'s>(
    hash: &mut BTreeMap<&'s str, PathAndJson<'s>>,
    key: &'s str,
    value: Result<PathAndJson<'s>, Stop>,
) -> Result<(), Stop> {
    match value {
        Ok(value) => had(hash.insert(key, value)).map(let_go),
        Err(stop) => Err(stop),
    }
}
