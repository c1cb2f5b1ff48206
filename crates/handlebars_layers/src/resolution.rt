//! How paths are resolved in layers. Nothing is made for it.

ghost use Rattle.std.specs.Prelude.{◌≡◌, IfSome, option_map, string_bytes};
ghost use Rattle.handlebars_base.specs.Path.{Segment};
ghost use Rattle.handlebars_base.specs.PathView.{segments_of};
ghost use Rattle.handlebars_scope.specs.Resolve.{after_ups, bound_resolution, is_from_root, resolution_of, resolution_of_bound, resolution_of_name};
ghost use Rattle.handlebars_scope.specs.Resolve.{single_plain_name, unbound_resolution, ups_in};
ghost use Rattle.handlebars_layers.specs.Chain.{names_at};
ghost use Rattle.handlebars_layers.specs.Frames.{nearest_resolution, path_resolution};
ghost use Rattle.handlebars_layers.specs.Destination.{IsInData, bound_view, frames_in, layer_resolution};

use crate::destination::{Bound, FrameValue};
use crate::scopes::Scopes;
use handlebars_base::json::path::{PathRule, PathSeg};

/// How a path is resolved: from a value that has no path, or from the data.
#[derive(Clone, Copy)]
pub enum Resolution<'r, 'a> {
    /// From a value that has no path, along the names of segments.
    Within(FrameValue<'r>, &'r [PathSeg]),
    /// From the base path of a frame, along what a name is bound to below it, and the names of segments.
    Along {
        start: Scopes<'r, 'a>,
        bound: &'r [String],
        rest: &'r [PathSeg],
    },
    /// By a name under the longest prefix of the base path of a frame.
    UnderPrefix {
        start: Scopes<'r, 'a>,
        name: &'r String,
    },
}

/// Returns the resolution of segments in these frames.
#[inline(always)]
pub fn resolution_of<'r, 'a>(
    scopes: Scopes<'r, 'a>,
    recursive: bool,
    segments: &'r [PathSeg],
) -> Resolution<'r, 'a>
    ensures resolution { layer_resolution result ≡ resolution_of recursive (frames_in scopes.entry) (segments_of segments.now) }
    ensures given { IsInData result scopes.entry.given }
{
    let (ups, after) = past_ups(segments);
    match bound_resolution(scopes, after) {
        Some(resolution) => resolution,
        None => unbound_resolution(scopes, recursive, ups, segments),
    }
}

/// Returns the number of `..` at the start.
#[inline(always)]
pub fn ups_in(segments: &[PathSeg]) -> usize
    ensures { result ≡ ups_in (segments_of segments.now) }
{
    past_ups(segments).0
}

// Returns the number of `..` at the start, and the segments after them.
#[inline(always)]
fn past_ups(segments: &[PathSeg]) -> (usize, &[PathSeg])
    ensures ups { result.0 ≡ ups_in (segments_of segments.now) }
    ensures after { segments_of result.1.now ≡ after_ups (segments_of segments.now) }
{
    let mut ups = 0;
    let mut after = segments;
    while let [PathSeg::Ruled(PathRule::Up), rest @ ..] = after {
        ups += 1;
        after = rest;
    }
    (ups, after)
}

// ---- bound names

// Returns the resolution of segments that begin with a bound name. If no frame binds a name, none is asked.
#[inline(always)]
fn bound_resolution<'r, 'a>(
    scopes: Scopes<'r, 'a>,
    segments: &'r [PathSeg],
) -> Option<Resolution<'r, 'a>>
    ensures resolution { option_map layer_resolution result ≡ bound_resolution (frames_in scopes.entry) (segments_of segments.now) }
    ensures given { IfSome result (λ resolution. IsInData resolution scopes.entry.given) }
{
    if !scopes.binds {
        return None;
    }
    match segments {
        [PathSeg::Named(name), rest @ ..] => resolution_of_name(scopes, name.as_str(), rest),
        _ => None,
    }
}

// Returns the resolution of a bound name: by the nearest frame that binds it.
#[inline(never)]
fn resolution_of_name<'r, 'a>(
    scopes: Scopes<'r, 'a>,
    name: &str,
    rest: &'r [PathSeg],
) -> Option<Resolution<'r, 'a>>
    ensures resolution { option_map layer_resolution result
        ≡ resolution_of_name (frames_in scopes.entry) name.now (segments_of rest.now) }
    ensures given { IfSome result (λ resolution. IsInData resolution scopes.entry.given) }
{
    let mut here = scopes;
    loop {
        if let Some(bound) = here.bound(name) {
            return Some(resolution_of_bound(here, bound, rest));
        }
        match here.outer() {
            Some(outer) => here = outer,
            None => return None,
        }
    }
}

// Returns the resolution by what the nearest frame binds a name to and by the segments after the name.
#[inline(always)]
fn resolution_of_bound<'r, 'a>(
    start: Scopes<'r, 'a>,
    bound: Bound<'r>,
    rest: &'r [PathSeg],
) -> Resolution<'r, 'a>
    ensures resolution { layer_resolution result
        ≡ resolution_of_bound (names_at (frames_in start.entry)) (bound_view bound.entry) (segments_of rest.now) }
    ensures given { IsInData result start.entry.given }
{
    match bound {
        Bound::Path(bound) => Resolution::Along { start, bound, rest },
        Bound::Value(value) => Resolution::Within(value, rest),
    }
}

// ---- in a frame

// Returns the resolution of segments whose name no frame binds. `ups` is the number of `..` at their start.
#[inline(always)]
fn unbound_resolution<'r, 'a>(
    scopes: Scopes<'r, 'a>,
    recursive: bool,
    ups: usize,
    segments: &'r [PathSeg],
) -> Resolution<'r, 'a>
    requires { ups ≡ ups_in (segments_of segments.now) }
    ensures resolution { layer_resolution result
        ≡ unbound_resolution recursive (frames_in scopes.entry) (segments_of segments.now) }
    ensures given { IsInData result scopes.entry.given }
{
    if is_from_root(segments) {
        return Resolution::Along {
            start: scopes.root(),
            bound: &[],
            rest: segments,
        };
    }
    resolution_in(scopes.up_or_nearest(ups), recursive, segments)
}

/// Returns whether `@root` is at the start.
#[inline(always)]
pub fn is_from_root(segments: &[PathSeg]) -> bool
    ensures { result ≡ is_from_root (segments_of segments.now) }
{
    match segments {
        [PathSeg::Ruled(PathRule::Root), ..] => true,
        _ => false,
    }
}

// Returns the resolution of segments in the nearest frame: from its value, if it has one, or else along its base path.
#[inline(always)]
fn resolution_in<'r, 'a>(
    scopes: Scopes<'r, 'a>,
    recursive: bool,
    segments: &'r [PathSeg],
) -> Resolution<'r, 'a>
    ensures resolution { layer_resolution result
        ≡ nearest_resolution recursive (frames_in scopes.entry) (segments_of segments.now) }
    ensures given { IsInData result scopes.entry.given }
{
    match scopes.base_value() {
        Some(value) => Resolution::Within(FrameValue::Json(value), segments),
        None => resolution_from(scopes, recursive, segments),
    }
}

// Returns the resolution along the base path of the nearest frame. With recursive lookup a plain name is looked up under the
// prefixes of that path.
#[inline(always)]
fn resolution_from<'r, 'a>(
    scopes: Scopes<'r, 'a>,
    recursive: bool,
    segments: &'r [PathSeg],
) -> Resolution<'r, 'a>
    ensures resolution { layer_resolution result
        ≡ path_resolution recursive (frames_in scopes.entry) (segments_of segments.now) }
    ensures given { IsInData result scopes.entry.given }
{
    match plain_name(segments) {
        Some(name) if recursive && scopes.has_frame() => Resolution::UnderPrefix {
            start: scopes,
            name,
        },
        _ => Resolution::Along {
            start: scopes,
            bound: &[],
            rest: segments,
        },
    }
}

// Returns the name, if the segments are one name alone.
#[inline(always)]
fn plain_name(segments: &[PathSeg]) -> Option<&String>
    ensures { option_map (λ name. string_bytes name.now) result ≡ single_plain_name (segments_of segments.now) }
{
    match segments {
        [PathSeg::Named(name)] => Some(name),
        _ => None,
    }
}
