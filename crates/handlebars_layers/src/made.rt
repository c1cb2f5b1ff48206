//! What is made only where it is asked for: the names of a route, and the JSON of a variable.

ghost use Rattle.std.specs.Prelude.{◌≡◌, ◌++◌, ◌∷◌, [], false, IfOk, OnOk, reverse};
ghost use Rattle.serde_json.specs.View.{view};
ghost use Rattle.handlebars_base.specs.PathView.{segments_of};
ghost use Rattle.handlebars_scope.specs.Resolve.{names_of};
ghost use Rattle.handlebars_scope.specs.ResolutionView.{names_in};
ghost use Rattle.handlebars_layers.specs.Chain.{frames_from, names_at, kind_names};
ghost use Rattle.handlebars_layers.specs.FrameValues.{value_data};
ghost use Rattle.handlebars_layers.specs.LayerView.{chain_of, descent_names, kind_view, last_names, own_names};
ghost use Rattle.handlebars_layers.specs.Destination.{route_names};

use crate::destination::{FrameValue, Route};
use crate::layer::{Descent, Layer, LayerKind};
use crate::outside::outside_frame;
use handlebars_base::json::path::PathSeg;
use handlebars_base::json::value::Json;
use itoa::Buffer;
use serde_json::Number;
use std::alloc::{AllocError, Global};

/// Returns a copy of a value of a frame.
///
/// # Errors
///
/// Fails if memory runs out.
pub fn json_of(value: FrameValue<'_>, alloc: Global) -> Result<Json, AllocError>
    ensures { IfOk result (λ v. view v ≡ value_data value.entry) }
{
    match value {
        FrameValue::Json(json) => json.clone(),
        FrameValue::Index(index) => Ok(Json::Number(Number::from(index))),
        FrameValue::True => Ok(Json::Bool(true)),
        FrameValue::False => Ok(Json::Bool(false)),
        FrameValue::Key(key) => Ok(Json::String(String::from_str(alloc, key)?)),
    }
}

// ---- names

/// Returns the names of a route, from the data to its value. Runs in time linear in their number.
///
/// # Errors
///
/// Fails if memory runs out.
pub fn path_of(route: Route<'_, '_>, alloc: Global) -> Result<Vec<String>, AllocError>
    ensures { IfOk result (λ path. names_in path.items ≡ route_names route.entry) }
{
    let mut path = Vec::new(alloc);
    push_descent(alloc, &mut path, &route.descent)?;
    let mut here = route.start.nearest;
    let mut skipped = route.start.skipped;
    while let Layer::At {
        start,
        skipped: further,
        descent,
        kind,
        ..
    } = here
    {
        push_member(alloc, &mut path, *kind)?;
        push_descent(alloc, &mut path, *descent)?;
        here = start;
        skipped = *further;
    }
    match here {
        Layer::Root => finished(path, &[]),
        Layer::Outside { frames } => match outside_frame(frames, skipped) {
            Some(frame) => finished(path, frame.base_path()),
            None => finished(path, &[]),
        },
        Layer::At { .. } => unreachable!(),
        Layer::Value { .. } => finished(path, &[]),
        Layer::Frame { frame, .. } => finished(path, frame.base_path()),
    }
}

// Returns the names of a base, and after them those that were added in reverse.
fn finished(path: Vec<String>, base: &[String]) -> Result<Vec<String>, AllocError>
    ensures { IfOk result (λ all. names_in all.items ≡ names_in base.now ++ reverse (names_in path.items)) }
{
    let mut all = path;
    push_names(&mut all, base)?;
    all.reverse();
    Ok(all)
}

// Adds the name of an iteration's member.
fn push_member(alloc: Global, path: &mut Vec<String>, kind: LayerKind<'_>) -> Result<(), AllocError>
    ensures { OnOk result (names_in path.new.items ≡ names_in path.old.items ++ reverse (kind_names (kind_view kind.entry))) }
{
    match kind {
        LayerKind::Iteration { index, key, .. } => match key {
            Some(key) => push_text(alloc, path, key),
            None => {
                let mut digits = Buffer::new();
                push_text(alloc, path, digits.format(index))
            }
        },
        LayerKind::With { .. } => Ok(()),
        LayerKind::Partial { .. } => Ok(()),
    }
}

fn push_text(alloc: Global, path: &mut Vec<String>, name: &str) -> Result<(), AllocError>
    ensures { OnOk result (names_in path.new.items ≡ names_in path.old.items ++ name.now ∷ []) }
{
    path.push(String::from_str(alloc, name)?)?;
    Ok(())
}

// Adds names that lead on from a frame, the last one first.
fn push_descent(
    alloc: Global,
    path: &mut Vec<String>,
    descent: &Descent<'_>,
) -> Result<(), AllocError>
    ensures { OnOk result (names_in path.new.items ≡ names_in path.old.items ++ reverse (descent_names descent.now)) }
{
    let mut here = descent;
    'descents: loop {
        push_own(alloc, path, here)?;
        match here.after {
            Some(after) => here = after,
            None => return Ok(()),
        }
    }
}

// Adds the names of a descent, the last one first, without those of the descent before it.
fn push_own(alloc: Global, path: &mut Vec<String>, descent: &Descent<'_>) -> Result<(), AllocError>
    ensures { OnOk result (names_in path.new.items ≡ names_in path.old.items ++ reverse (own_names descent.now)) }
{
    push_last(path, descent.last)?;
    push_segments(alloc, path, descent.rest)?;
    push_names(path, descent.bound)
}

// Adds the name that recursive lookup found, if it found one.
fn push_last(path: &mut Vec<String>, last: Option<&String>) -> Result<(), AllocError>
    ensures { OnOk result (names_in path.new.items ≡ names_in path.old.items ++ last_names last.entry) }
{
    if let Some(name) = last {
        path.push(name.clone()?)?;
    }
    Ok(())
}

// Adds names, the last one first.
fn push_names(path: &mut Vec<String>, names: &[String]) -> Result<(), AllocError>
    ensures { OnOk result (names_in path.new.items ≡ names_in path.old.items ++ reverse (names_in names.now)) }
{
    let mut left = names;
    'names: while let Some((name, rest)) = left.split_last() {
        path.push(name.clone()?)?;
        left = rest;
    }
    Ok(())
}

// Adds the names of segments, the last one first.
fn push_segments(
    alloc: Global,
    path: &mut Vec<String>,
    segments: &[PathSeg],
) -> Result<(), AllocError>
    ensures { OnOk result (names_in path.new.items ≡ names_in path.old.items ++ reverse (names_of (segments_of segments.now))) }
{
    let mut left = segments;
    'segments: while let Some((segment, rest)) = left.split_last() {
        match segment {
            PathSeg::Named(name) => push_text(alloc, path, name.as_str())?,
            PathSeg::Ruled(_) => {}
        }
        left = rest;
    }
    Ok(())
}
