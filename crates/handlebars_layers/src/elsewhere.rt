//! What paths lead to in other data than those of the frames: in data that a run has changed. The base path of a frame is made
//! for it, since its layers are where they are in the frames' own data.

ghost use Rattle.std.specs.Prelude.{◌≡◌, ◌++◌, [], IfOk, option_map, string_bytes};
ghost use Rattle.serde_json.specs.View.{view};
ghost use Rattle.handlebars_base.specs.Answers.{answer_map, gives};
ghost use Rattle.handlebars_base.specs.PathView.{reference_of, segments_of};
ghost use Rattle.handlebars_base.specs.Scoped.{present_in};
ghost use Rattle.handlebars_scope.specs.Resolve.{longest, names_of, navigate, resolve, value_at};
ghost use Rattle.handlebars_scope.specs.ResolutionView.{names_in, reached_of};
ghost use Rattle.handlebars_layers.specs.Chain.{names_at};
ghost use Rattle.handlebars_layers.specs.Destination.{found_in_data, frames_in, within_of};
ghost use Rattle.handlebars_layers.specs.Under.{under};

use crate::descents::{along_names, walk_from};
use crate::destination::{FoundInData, Route};
use crate::layer::Descent;
use crate::lookup::{variable_at, within};
use crate::made::path_of;
use crate::resolution::{Resolution, resolution_of};
use crate::scopes::Scopes;
use handlebars_base::json::path::{Path, PathSeg};
use handlebars_base::json::value::Json;
use handlebars_scope::context::looked_up::LookedUp;
use handlebars_scope::context::members;
use handlebars_scope::context::reached::Reached;
use std::alloc::{AllocError, Global};

/// Returns what a path leads to in these data, with recursive lookup or without.
///
/// # Errors
///
/// Fails if memory runs out.
pub fn resolve_in<'s, 'd>(
    alloc: Global,
    scopes: Scopes<'s, '_>,
    changed: &'d Json,
    recursive: bool,
    path: &'s Path,
    looked_up: &LookedUp,
) -> Result<FoundInData<'s, 'd>, AllocError>
    ensures { IfOk result (λ found. found_in_data found
        ≡ answer_map present_in (resolve recursive (frames_in scopes.entry) (reference_of path.now) (view changed.now))) }
{
    match path {
        Path::Relative((segments, _)) => {
            navigate_in(
                alloc,
                scopes,
                changed,
                recursive,
                segments.as_slice(),
                looked_up,
            )
        }
        Path::Local((level, name, _)) => match variable_at(scopes, *level, name.as_str()) {
            Some(value) => Ok(FoundInData::Frame(value)),
            None => Ok(FoundInData::Nothing),
        },
    }
}

/// Returns what segments lead to in these data, with recursive lookup or without.
///
/// # Errors
///
/// Fails if memory runs out.
pub fn navigate_in<'s, 'd>(
    alloc: Global,
    scopes: Scopes<'s, '_>,
    changed: &'d Json,
    recursive: bool,
    segments: &'s [PathSeg],
    looked_up: &LookedUp,
) -> Result<FoundInData<'s, 'd>, AllocError>
    ensures { IfOk result (λ found. found_in_data found
        ≡ answer_map present_in (navigate recursive (frames_in scopes.entry) (segments_of segments.now) (view changed.now))) }
{
    match resolution_of(scopes, recursive, segments) {
        Resolution::Along { start, bound, rest } => {
            enter_from(alloc, start, changed, bound, rest, looked_up)
        }
        Resolution::UnderPrefix { start, name } => {
            under_prefix(alloc, start, changed, name, looked_up)
        }
        Resolution::Within(value, rest) => match within(value, rest) {
            Ok(Some(found)) => Ok(FoundInData::Frame(found)),
            Ok(None) => Ok(FoundInData::Nothing),
            Err(name) => Ok(FoundInData::NoIndex(String::from_str(alloc, name)?)),
        },
    }
}

// Returns what names lead to in these data, after the base path of the nearest frame.
fn enter_from<'s, 'd>(
    alloc: Global,
    start: Scopes<'s, '_>,
    changed: &'d Json,
    bound: &'s [String],
    rest: &'s [PathSeg],
    looked_up: &LookedUp,
) -> Result<FoundInData<'s, 'd>, AllocError>
    ensures { IfOk result (λ found. found_in_data found ≡ value_at (view changed.now)
        (names_at (frames_in start.entry) ++ (names_in bound.now ++ names_of (segments_of rest.now)))) }
{
    let base = base_names(alloc, start)?;
    let (reached, members) = members::along_names(changed, &base);
    looked_up.add(members);
    match reached {
        Reached::Value(node) => {
            let (reached, members) = members::enter(node, bound, rest);
            looked_up.add(members);
            found(alloc, start, reached)
        }
        Reached::Nothing => Ok(FoundInData::Nothing),
        Reached::NoIndex(name) => Ok(FoundInData::NoIndex(String::from_str(alloc, name)?)),
    }
}

// Returns what a name leads to in these data under the longest prefix of the base path of the nearest frame.
fn under_prefix<'s, 'd>(
    alloc: Global,
    start: Scopes<'s, '_>,
    changed: &'d Json,
    name: &'s String,
    looked_up: &LookedUp,
) -> Result<FoundInData<'s, 'd>, AllocError>
    ensures { IfOk result (λ found. found_in_data found ≡ gives (option_map (λ hit. hit.1)
        (longest (view changed.now) (names_at (frames_in start.entry)) (string_bytes name.now)))) }
{
    let base = base_names(alloc, start)?;
    match longest(changed, &base, name, looked_up) {
        Some(value) => Ok(FoundInData::Data(value)),
        None => Ok(FoundInData::Nothing),
    }
}

// Returns what a name leads to under the longest prefix of these names.
fn longest<'c, 'n>(
    changed: &'c Json,
    base: &'n [String],
    name: &'n String,
    looked_up: &LookedUp,
) -> Option<&'c Json>
    ensures { option_map (λ v. view v.now) result
        ≡ option_map (λ hit. hit.1) (under (view changed.now) [] (names_in base.now) (string_bytes name.now)) }
{
    match along_names(None, base, walk_from(changed), name, looked_up).best {
        Some((_, value)) => Some(value),
        None => {
            looked_up.add(1);
            members::value_by_name(changed, name)
        }
    }
}

// Returns the names of the base path of the nearest frame.
fn base_names(alloc: Global, start: Scopes<'_, '_>) -> Result<Vec<String>, AllocError>
    ensures { IfOk result (λ names. names_in names.items ≡ names_at (frames_in start.entry)) }
{
    let route = Route {
        start,
        descent: Descent {
            after: None,
            bound: &[],
            rest: &[],
            last: None,
        },
    };
    path_of(route, alloc)
}

// Returns what names reached, with a copy of the name that isn't an index.
fn found<'s, 'd>(
    alloc: Global,
    _start: Scopes<'s, '_>,
    reached: Reached<'d, '_>,
) -> Result<FoundInData<'s, 'd>, AllocError>
    ensures { IfOk result (λ found. found_in_data found ≡ reached_of reached.entry) }
{
    match reached {
        Reached::Value(value) => Ok(FoundInData::Data(value)),
        Reached::Nothing => Ok(FoundInData::Nothing),
        Reached::NoIndex(name) => Ok(FoundInData::NoIndex(String::from_str(alloc, name)?)),
    }
}
