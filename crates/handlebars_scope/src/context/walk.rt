//! Where paths lead in scope frames and data, with copies of what was found.

ghost use Rattle.std.specs.Prelude.{◌≡◌, ◌++◌, IfOk, false, string_bytes};
ghost use Rattle.serde_json.specs.View.{view};
ghost use Rattle.handlebars_base.specs.Answers.{Answers, answer_map};
ghost use Rattle.handlebars_base.specs.PathView.{segments_of};
ghost use Rattle.handlebars_base.specs.Scoped.{found_of, is_constant};
ghost use Rattle.handlebars_scope.specs.Resolve.{along, found_by, found_prefix, found_within, longest, names_of, navigate, value_at};
ghost use Rattle.handlebars_scope.specs.ScopeView.{frames_of};
ghost use Rattle.handlebars_scope.specs.ResolutionView.{names_in, reached_of, resolution_view};

use crate::block::BlockContext;
use crate::context::copied_path::{joined, prefix};
use crate::context::members::{along_names, along_segments, enter};
use crate::context::prefixes::longest;
use crate::context::reached::{Reached, wrong_index};
use crate::context::resolution::{Resolution, resolution_of};
use handlebars_base::error::RenderError;
use handlebars_base::json::path::PathSeg;
use handlebars_base::json::value::{Json, ScopedJson};
use std::alloc::{AllocError, Global};
use std::collections::VecDeque;

// Returns what the segments of a path lead to, with its full path.
pub(super) fn navigate<'a>(
    alloc: Global,
    given: &'a Json,
    segments: &[PathSeg],
    blocks: &VecDeque<BlockContext>,
    recursive: bool,
) -> Result<ScopedJson<'a>, RenderError>
    ensures found { Answers found_of result
        (navigate recursive (frames_of blocks.now.items) (segments_of segments.now) (view given.now)) }
    ensures plain { IfOk result (λ found. is_constant found ≡ false) }
{
    found_by(alloc, given, resolution_of(blocks, segments, recursive))
}

// Returns what a resolution leads to, with its full path.
fn found_by<'a>(
    alloc: Global,
    given: &'a Json,
    resolution: Resolution<'_, '_>,
) -> Result<ScopedJson<'a>, RenderError>
    ensures found { Answers found_of result (found_by (resolution_view resolution.entry) (view given.now)) }
    ensures plain { IfOk result (λ found. is_constant found ≡ false) }
{
    match resolution {
        Resolution::Within(held, rest) => found_within(alloc, held, rest),
        Resolution::Along { base, bound, rest } => found_along(alloc, given, base, bound, rest),
        Resolution::UnderPrefix(base, name) => Ok(found_prefix(alloc, given, base, name)?),
    }
}

// A value of a block has no path, and is copied.
fn found_within<'a>(
    alloc: Global,
    held: &Json,
    rest: &[PathSeg],
) -> Result<ScopedJson<'a>, RenderError>
    ensures found { Answers found_of result
        (answer_map found_within (value_at (view held.now) (names_of (segments_of rest.now)))) }
    ensures plain { IfOk result (λ found. is_constant found ≡ false) }
{
    match along_segments(held, rest).0 {
        Reached::Value(value) => Ok(ScopedJson::Derived(value.clone()?)),
        Reached::Nothing => Ok(ScopedJson::Missing),
        Reached::NoIndex(name) => Err(wrong_index(alloc, name)),
    }
}

fn found_along<'a>(
    alloc: Global,
    given: &'a Json,
    base: &[String],
    bound: &[String],
    rest: &[PathSeg],
) -> Result<ScopedJson<'a>, RenderError>
    ensures found { Answers found_of result (found_by
        (along (names_in base.now ++ (names_in bound.now ++ names_of (segments_of rest.now))))
        (view given.now)) }
    ensures plain { IfOk result (λ found. is_constant found ≡ false) }
{
    match along_all(given, base, bound, rest) {
        Reached::Value(value) => Ok(ScopedJson::Context(value, joined(alloc, base, bound, rest)?)),
        Reached::Nothing => Ok(ScopedJson::Missing),
        Reached::NoIndex(name) => Err(wrong_index(alloc, name)),
    }
}

fn found_prefix<'a>(
    alloc: Global,
    given: &'a Json,
    base: &[String],
    name: &String,
) -> Result<ScopedJson<'a>, AllocError>
    ensures found { IfOk result (λ found. found_of found ≡ found_prefix (names_in base.now) (string_bytes name.now)
        (longest (view given.now) (names_in base.now) (string_bytes name.now))) }
    ensures plain { IfOk result (λ found. is_constant found ≡ false) }
{
    match longest(given, base, name) {
        Some((retained, value)) => Ok(ScopedJson::Context(
            value,
            prefix(alloc, &base[..retained], name)?,
        )),
        None => Ok(ScopedJson::Missing),
    }
}

// Returns what the names of a base path, of what is bound below it, and of segments reach.
fn along_all<'v, 'n>(
    given: &'v Json,
    base: &'n [String],
    bound: &'n [String],
    rest: &'n [PathSeg],
) -> Reached<'v, 'n>
    ensures { reached_of result
        ≡ value_at (view given.now) (names_in base.now ++ (names_in bound.now ++ names_of (segments_of rest.now))) }
{
    match along_names(given, base).0 {
        Reached::Value(at_base) => enter(at_base, bound, rest).0,
        stopped => stopped,
    }
}
