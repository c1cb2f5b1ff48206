//! How paths are resolved in scope frames. Nothing is copied for it.

ghost use Rattle.std.specs.Prelude.{◌≡◌, ◌++◌, option_map, slice_get, string_bytes};
ghost use Rattle.serde_json.specs.View.{view};
ghost use Rattle.handlebars_base.specs.PathView.{segments_of};
ghost use Rattle.handlebars_scope.specs.Resolve.{along, after_ups, frame_up, is_from_root};
ghost use Rattle.handlebars_scope.specs.Resolve.{names_of, single_plain_name, ups_in};
ghost use Rattle.handlebars_scope.specs.Resolve.{bound_resolution, unbound_resolution, resolution_from, resolution_in};
ghost use Rattle.handlebars_scope.specs.Resolve.{resolution_of, resolution_of_bound, resolution_of_name};
ghost use Rattle.handlebars_scope.specs.ScopeView.{bound_of, frame_of, frames_of};
ghost use Rattle.handlebars_scope.specs.ResolutionView.{names_in, resolution_view};

use crate::block::{BlockContext, BlockParamHolder};
use handlebars_base::json::path::{PathRule, PathSeg};
use handlebars_base::json::value::Json;
use std::collections::VecDeque;

/// How a path is resolved: from a value that a block holds, or from the data.
#[derive(Clone, Copy)]
pub enum Resolution<'b, 'p> {
    /// From a value that a block holds, along the names of segments.
    Within(&'b Json, &'p [PathSeg]),
    /// From the data, along a base path, what a name is bound to below it, and the names of segments.
    Along {
        base: &'b [String],
        bound: &'b [String],
        rest: &'p [PathSeg],
    },
    /// From the data, by a name under the longest prefix of a base path.
    UnderPrefix(&'b [String], &'p String),
}

/// Returns the resolution of segments in these blocks.
pub fn resolution_of<'b, 'p>(
    blocks: &'b VecDeque<BlockContext>,
    segments: &'p [PathSeg],
    recursive: bool,
) -> Resolution<'b, 'p>
    ensures { resolution_view result ≡ resolution_of recursive (frames_of blocks.now.items) (segments_of segments.now) }
{
    let (ups, after) = past_ups(segments);
    match bound_resolution(blocks, after) {
        Some(resolution) => resolution,
        None => unbound_resolution(blocks, ups, segments, recursive),
    }
}

// Returns the number of `..` at the start, and the segments after them.
fn past_ups(segments: &[PathSeg]) -> (usize, &[PathSeg])
    ensures ups { result.0 ≡ ups_in (segments_of segments.now) }
    ensures after { segments_of result.1.now ≡ after_ups (segments_of segments.now) }
{
    let mut ups = 0;
    let mut after = segments;
    while let [PathSeg::Ruled(PathRule::Up), rest @ ..] = after {
        ups += 1;
        after = rest;
    }
    (ups, after)
}

// Returns the resolution of segments that begin with a bound name.
fn bound_resolution<'b, 'p>(
    blocks: &'b VecDeque<BlockContext>,
    segments: &'p [PathSeg],
) -> Option<Resolution<'b, 'p>>
    ensures { option_map resolution_view result ≡ bound_resolution (frames_of blocks.now.items) (segments_of segments.now) }
{
    match segments {
        [PathSeg::Named(name), rest @ ..] => resolution_of_name(blocks, name, rest),
        _ => None,
    }
}

// Returns the resolution of a bound name: by the nearest block that binds it.
fn resolution_of_name<'b, 'p>(
    blocks: &'b VecDeque<BlockContext>,
    name: &String,
    rest: &'p [PathSeg],
) -> Option<Resolution<'b, 'p>>
    ensures { option_map resolution_view result
        ≡ resolution_of_name (frames_of blocks.now.items) (string_bytes name.now) (segments_of rest.now) }
{
    for block in blocks.iter() {
        if let Some(bound) = block.get_block_param(name.as_str()) {
            return Some(resolution_of_bound(block, bound, rest));
        }
    }
    None
}

// Returns the resolution by what a block binds a name to and by the segments after the name.
fn resolution_of_bound<'b, 'p>(
    block: &'b BlockContext,
    bound: &'b BlockParamHolder,
    rest: &'p [PathSeg],
) -> Resolution<'b, 'p>
    ensures { resolution_view result
        ≡ resolution_of_bound (frame_of block.now).base_path (bound_of bound.now) (segments_of rest.now) }
{
    match bound {
        BlockParamHolder::Path(path) => Resolution::Along {
            base: block.base_path(),
            bound: path,
            rest,
        },
        BlockParamHolder::Value(value) => Resolution::Within(value, rest),
    }
}

// Returns the resolution of segments whose name no block binds. `ups` is the number of `..` at their start.
fn unbound_resolution<'b, 'p>(
    blocks: &'b VecDeque<BlockContext>,
    ups: usize,
    segments: &'p [PathSeg],
    recursive: bool,
) -> Resolution<'b, 'p>
    requires { ups ≡ ups_in (segments_of segments.now) }
    ensures { resolution_view result ≡ unbound_resolution recursive (frames_of blocks.now.items) (segments_of segments.now) }
{
    if is_from_root(segments) {
        return along(&[], segments);
    }
    match frame_up(blocks, ups) {
        Some(block) => resolution_in(block, segments, recursive),
        None => along(&[], segments),
    }
}

fn is_from_root(segments: &[PathSeg]) -> bool
    ensures { result ≡ is_from_root (segments_of segments.now) }
{
    match segments {
        [PathSeg::Ruled(PathRule::Root), ..] => true,
        _ => false,
    }
}

// Returns the block this many blocks up, or the nearest one if there is no such block.
fn frame_up(blocks: &VecDeque<BlockContext>, ups: usize) -> Option<&BlockContext>
    ensures { option_map (λ b. frame_of b.now) result ≡ frame_up (frames_of blocks.now.items) ups }
{
    match block_at(blocks, ups) {
        Some(block) => Some(block),
        None => block_at(blocks, 0),
    }
}

// Returns the block this many blocks up, if there is one.
fn block_at(blocks: &VecDeque<BlockContext>, ups: usize) -> Option<&BlockContext>
    ensures { option_map (λ b. frame_of b.now) result ≡ slice_get (frames_of blocks.now.items) ups }
{
    blocks.get(ups)
}

// In a block with a base value paths lead from that value. In any other block they lead from the data along its base path.
fn resolution_in<'b, 'p>(
    block: &'b BlockContext,
    segments: &'p [PathSeg],
    recursive: bool,
) -> Resolution<'b, 'p>
    ensures { resolution_view result ≡ resolution_in recursive (frame_of block.now) (segments_of segments.now) }
{
    match block.base_value() {
        Some(value) => Resolution::Within(value, segments),
        None => resolution_from(block.base_path(), segments, recursive),
    }
}

// With recursive lookup a plain name is looked up under the prefixes of the base path.
fn resolution_from<'b, 'p>(
    base: &'b [String],
    segments: &'p [PathSeg],
    recursive: bool,
) -> Resolution<'b, 'p>
    ensures { resolution_view result
        ≡ resolution_from recursive (names_in base.now) (segments_of segments.now) (single_plain_name (segments_of segments.now)) }
{
    match plain_name(segments) {
        Some(name) if recursive => Resolution::UnderPrefix(base, name),
        _ => along(base, segments),
    }
}

// Returns the name, if the segments are one name alone.
fn plain_name(segments: &[PathSeg]) -> Option<&String>
    ensures { option_map (λ name. string_bytes name.now) result ≡ single_plain_name (segments_of segments.now) }
{
    match segments {
        [PathSeg::Named(name)] => Some(name),
        _ => None,
    }
}

// Returns the resolution from the data along a base path and the names of segments.
fn along<'b, 'p>(base: &'b [String], rest: &'p [PathSeg]) -> Resolution<'b, 'p>
    ensures { resolution_view result ≡ along (names_in base.now ++ names_of (segments_of rest.now)) }
{
    Resolution::Along {
        base,
        bound: &[],
        rest,
    }
}
