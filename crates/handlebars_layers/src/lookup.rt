//! What paths lead to in layers. Nothing is made for it.

ghost use Rattle.std.specs.Prelude.{◌≡◌, ◌++◌, false, option_map, true};
ghost use Rattle.serde_json.specs.Data.{Data};
ghost use Rattle.handlebars_base.specs.Answers.{gives};
ghost use Rattle.handlebars_base.specs.PathView.{reference_of, segments_of};
ghost use Rattle.handlebars_scope.specs.Resolve.{along, found_by, in_block_value, names_of, navigate, resolve, unbound_resolution, value_at, variable_at};
ghost use Rattle.handlebars_scope.specs.ResolutionView.{names_in};
ghost use Rattle.handlebars_layers.specs.Chain.{names_at};
ghost use Rattle.handlebars_layers.specs.Frames.{is_scalar, nearest_resolution};
ghost use Rattle.handlebars_layers.specs.FrameValues.{value_data};
ghost use Rattle.handlebars_layers.specs.Destination.{IsDestination, given_in, frames_in, within_of};

use crate::destination::{Destination, FrameValue};
use crate::prefixes::under_prefix;
use crate::resolution::{Resolution, is_from_root, resolution_of, ups_in};
use crate::scopes::Scopes;
use handlebars_base::json::path::{Path, PathSeg};
use handlebars_scope::context::looked_up::LookedUp;
use handlebars_scope::context::members::{along_segments, enter};
use handlebars_scope::context::reached::Reached;

/// Returns what a path leads to, with recursive lookup or without.
#[inline(always)]
pub fn resolve<'r, 'a>(
    scopes: Scopes<'r, 'a>,
    recursive: bool,
    path: &'r Path,
    looked_up: &LookedUp,
) -> Destination<'r, 'a>
    ensures { IsDestination
        (resolve recursive (frames_in scopes.entry) (reference_of path.now) (given_in scopes.entry)) result }
{
    match path {
        Path::Relative((segments, _)) => {
            navigate(scopes, recursive, segments.as_slice(), looked_up)
        }
        Path::Local((level, name, _)) => match variable_at(scopes, *level, name.as_str()) {
            Some(value) => Destination::Value(value),
            None => Destination::Nothing,
        },
    }
}

/// Returns the variable of the frame this many frames out, if there is one.
#[inline(always)]
pub fn variable_at<'r, 'a>(
    scopes: Scopes<'r, 'a>,
    level: usize,
    name: &str,
) -> Option<FrameValue<'r>>
    ensures { option_map value_data result ≡ variable_at (frames_in scopes.entry) level name.now }
{
    match scopes.up(level) {
        Some(frames) => frames.variable(name),
        None => None,
    }
}

/// Returns what segments lead to, with recursive lookup or without.
#[inline(always)]
pub fn navigate<'r, 'a>(
    scopes: Scopes<'r, 'a>,
    recursive: bool,
    segments: &'r [PathSeg],
    looked_up: &LookedUp,
) -> Destination<'r, 'a>
    ensures { IsDestination
        (navigate recursive (frames_in scopes.entry) (segments_of segments.now) (given_in scopes.entry)) result }
{
    if recursive || scopes.binds {
        navigate_by_resolution(scopes, recursive, segments, looked_up)
    } else {
        navigate_unbound(scopes, segments, looked_up)
    }
}

// Returns what segments lead to. The resolution is made first, which takes more time than `navigate_unbound`.
#[inline(never)]
fn navigate_by_resolution<'r, 'a>(
    scopes: Scopes<'r, 'a>,
    recursive: bool,
    segments: &'r [PathSeg],
    looked_up: &LookedUp,
) -> Destination<'r, 'a>
    ensures { IsDestination
        (navigate recursive (frames_in scopes.entry) (segments_of segments.now) (given_in scopes.entry)) result }
{
    match resolution_of(scopes, recursive, segments) {
        Resolution::Along { start, bound, rest } => enter_from(start, bound, rest, looked_up),
        Resolution::UnderPrefix { start, name } => under_prefix(start, name, looked_up),
        Resolution::Within(value, rest) => enter_value(scopes, value, rest),
    }
}

// Returns what segments whose name no frame binds lead to, without recursive lookup.
#[inline(always)]
fn navigate_unbound<'r, 'a>(
    scopes: Scopes<'r, 'a>,
    segments: &'r [PathSeg],
    looked_up: &LookedUp,
) -> Destination<'r, 'a>
    ensures { IsDestination
        (found_by (unbound_resolution false (frames_in scopes.entry) (segments_of segments.now)) (given_in scopes.entry)) result }
{
    if is_from_root(segments) {
        navigate_nearest(scopes.root(), segments, looked_up)
    } else {
        navigate_nearest(scopes.up_or_nearest(ups_in(segments)), segments, looked_up)
    }
}

// Returns what segments lead to in the nearest frame: from its value, if it has one, or else along its base path.
#[inline(always)]
fn navigate_nearest<'r, 'a>(
    scopes: Scopes<'r, 'a>,
    segments: &'r [PathSeg],
    looked_up: &LookedUp,
) -> Destination<'r, 'a>
    ensures { IsDestination
        (found_by (nearest_resolution false (frames_in scopes.entry) (segments_of segments.now)) (given_in scopes.entry)) result }
{
    match scopes.base_value() {
        Some(value) => enter_value(scopes, FrameValue::Json(value), segments),
        None => enter_from(scopes, &[], segments, looked_up),
    }
}

// Returns what names lead to from the base path of the nearest frame: those that a name is bound to, and those of segments.
#[inline(always)]
fn enter_from<'r, 'a>(
    start: Scopes<'r, 'a>,
    bound: &'r [String],
    rest: &'r [PathSeg],
    looked_up: &LookedUp,
) -> Destination<'r, 'a>
    ensures { IsDestination (found_by
        (along (names_at (frames_in start.entry) ++ (names_in bound.now ++ names_of (segments_of rest.now)))) (given_in start.entry)) result }
{
    match start.base(looked_up) {
        Reached::Value(base) => {
            let (reached, members) = enter(base, bound, rest);
            if members > 0 {
                looked_up.add(members);
            }
            match reached {
                Reached::Value(node) => Destination::Node(node),
                Reached::Nothing => Destination::Nothing,
                Reached::NoIndex(name) => Destination::NoIndex(name),
            }
        }
        Reached::Nothing => Destination::Nothing,
        Reached::NoIndex(name) => Destination::NoIndex(name),
    }
}

// Returns what segments lead to from a value that has no path.
#[inline(always)]
fn enter_value<'r, 'a>(
    _scopes: Scopes<'r, 'a>,
    value: FrameValue<'r>,
    rest: &'r [PathSeg],
) -> Destination<'r, 'a>
    ensures { (d : Data) → IsDestination
        (found_by (in_block_value (value_data value.entry) (names_of (segments_of rest.now))) d) result }
{
    match within(value, rest) {
        Ok(Some(found)) => Destination::Value(found),
        Ok(None) => Destination::Nothing,
        Err(name) => Destination::NoIndex(name),
    }
}

/// Returns what segments lead to from a value that has no path, or the name that isn't an index.
pub fn within<'r>(
    value: FrameValue<'r>,
    rest: &'r [PathSeg],
) -> Result<Option<FrameValue<'r>>, &'r str>
    ensures { within_of result ≡ value_at (value_data value.entry) (names_of (segments_of rest.now)) }
{
    match value {
        FrameValue::Json(json) => match along_segments(json, rest).0 {
            Reached::Value(found) => Ok(Some(FrameValue::Json(found))),
            Reached::Nothing => Ok(None),
            Reached::NoIndex(name) => Err(name),
        },
        FrameValue::Index(_) => Ok(within_scalar(value, rest)),
        FrameValue::True => Ok(within_scalar(value, rest)),
        FrameValue::False => Ok(within_scalar(value, rest)),
        FrameValue::Key(_) => Ok(within_scalar(value, rest)),
    }
}

// Returns what segments lead to from a value that has no members.
fn within_scalar<'r>(value: FrameValue<'r>, rest: &[PathSeg]) -> Option<FrameValue<'r>>
    ensures { is_scalar (value_data value.entry) ≡ true
        → gives (option_map value_data result) ≡ value_at (value_data value.entry) (names_of (segments_of rest.now)) }
{
    let mut left = rest;
    while let [segment, more @ ..] = left {
        if let PathSeg::Named(_) = segment {
            return None;
        }
        left = more;
    }
    Some(value)
}
