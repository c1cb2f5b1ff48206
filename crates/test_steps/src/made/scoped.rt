//! Values with their origins.

use crate::answer::Stop;
use crate::fields::{copied, items, owned, owned_all};
use handlebars_base::json::value::{PathAndJson, ScopedJson};
use serde_json::Value as JsonValue;
use std::alloc::{AllocError, Global};

/// Returns a `constant` of the template, a value that is `derived`, one that is `found` in the data `at` a path, or a missing
/// one.
pub fn scoped_of<'s>(alloc: Global, it: &'s JsonValue) -> Result<ScopedJson<'s>, Stop> {
    if let Some(value) = it.get("constant") {
        return Ok(ScopedJson::Constant(value));
    }
    match (it.get("derived"), it.get("found")) {
        (Some(_), _) => derived(copied(it, "derived")),
        (None, Some(value)) => found_at(value, owned_all(alloc, items(it, "at"))),
        (None, None) => Ok(ScopedJson::Missing),
    }
}

fn derived<'s>(value: Result<JsonValue, AllocError>) -> Result<ScopedJson<'s>, Stop> {
    match value {
        Ok(value) => Ok(ScopedJson::Derived(value)),
        Err(AllocError) => Err(Stop::OutOfMemory),
    }
}

fn found_at<'s>(
    value: &'s JsonValue,
    path: Result<Vec<String>, AllocError>,
) -> Result<ScopedJson<'s>, Stop> {
    match path {
        Ok(path) => Ok(ScopedJson::Context(value, path)),
        Err(AllocError) => Err(Stop::OutOfMemory),
    }
}

/// Returns such a value with its path as written, which is the field `path`, if there is one.
pub fn given_of<'s>(alloc: Global, it: &'s JsonValue) -> Result<PathAndJson<'s>, Stop> {
    match it.get("path") {
        Some(_) => written_as(owned(alloc, it, "path"), scoped_of(alloc, it)),
        None => written_as_none(scoped_of(alloc, it)),
    }
}

fn written_as<'s>(
    path: Result<String, AllocError>,
    value: Result<ScopedJson<'s>, Stop>,
) -> Result<PathAndJson<'s>, Stop> {
    match (path, value) {
        (Ok(path), Ok(value)) => Ok(PathAndJson::new(Some(path), value)),
        (_, Err(stop)) => Err(stop),
        (Err(AllocError), _) => Err(Stop::OutOfMemory),
    }
}

fn written_as_none<'s>(value: Result<ScopedJson<'s>, Stop>) -> Result<PathAndJson<'s>, Stop> {
    match value {
        Ok(value) => Ok(PathAndJson::new(None, value)),
        Err(stop) => Err(stop),
    }
}
