//! Recursive lookup in layers: a name under the prefixes of a base path, the longest one first. Nothing is made for it. The value
//! of a layer is at the end of its base path, so the layers are gone through outwards, and at each of them the names of its
//! descent.

ghost use Rattle.std.specs.Prelude.{◌≡◌, ◌++◌, ◌∷◌, [], IfSome, drop, option_map, string_bytes};
ghost use Rattle.serde_json.specs.View.{view};
ghost use Rattle.handlebars_scope.specs.Resolve.{found_by, or_else, under_prefix};
ghost use Rattle.handlebars_scope.specs.ResolutionView.{names_in};
ghost use Rattle.handlebars_scope.specs.ScopeView.{frames_of};
ghost use Rattle.handlebars_layers.specs.Chain.{names_at};
ghost use Rattle.handlebars_layers.specs.Destination.{IsDestination, frames_in, given_in, route_names};
ghost use Rattle.handlebars_layers.specs.Hits.{below, placed};
ghost use Rattle.handlebars_layers.specs.LayerView.{after_names, kind_view};
ghost use Rattle.handlebars_layers.specs.Under.{beyond, from_end, hit_at, member_value, under};

use crate::descents::{along_descent, along_names, walk_from};
use crate::destination::{Destination, Route};
use crate::layer::{Descent, Layer, LayerKind};
use crate::outside::outside_frame;
use crate::scopes::Scopes;
use handlebars_base::json::value::Json;
use handlebars_scope::block::BlockContext;
use handlebars_scope::context::looked_up::LookedUp;
use handlebars_scope::context::members::value_by_name;
use std::collections::VecDeque;

/// Returns what a name leads to under the longest prefix of the base path of the nearest frame that has it.
pub fn under_prefix<'r, 'a>(
    scopes: Scopes<'r, 'a>,
    name: &'r String,
    looked_up: &LookedUp,
) -> Destination<'r, 'a>
    ensures { IsDestination
        (found_by (under_prefix (names_at (frames_in scopes.entry)) (string_bytes name.now)) (given_in scopes.entry)) result }
{
    match longest(scopes, name, looked_up) {
        Some((node, _)) => Destination::Node(node),
        None => Destination::Nothing,
    }
}

/// Returns the value under the longest prefix, and the route to it.
pub fn longest<'r, 'a>(
    scopes: Scopes<'r, 'a>,
    name: &'r String,
    looked_up: &LookedUp,
) -> Option<(&'a Json, Route<'r, 'a>)>
    ensures found { option_map placed result
        ≡ under (given_in scopes.entry) [] (names_at (frames_in scopes.entry)) (string_bytes name.now) }
    ensures given { IfSome result (λ hit. hit.1.start.given ≡ scopes.entry.given) }
{
    let mut nearest = scopes.nearest;
    let mut skipped = scopes.skipped;
    // The names after the base path of a layer. Under their prefixes the name is looked up before those of the base path.
    let mut further = None;
    'layers: loop {
        let here = Scopes {
            nearest,
            skipped,
            root: scopes.root,
            given: scopes.given,
            binds: true,
        };
        match nearest {
            Layer::Root => return in_frame(here, &[], further, name, looked_up),
            Layer::Outside { frames } => {
                return in_frame(
                    here,
                    outside_path(frames, skipped),
                    further,
                    name,
                    looked_up,
                );
            }
            Layer::At {
                node,
                start,
                skipped: start_skipped,
                descent,
                kind,
                ..
            } => {
                if let Some(hit) = in_descent(here, *node, further, name, looked_up) {
                    return Some(hit);
                }
                if let Some(value) = at_member(*node, *kind, name, looked_up) {
                    return Some((value, route_after(here, name)));
                }
                nearest = start;
                skipped = *start_skipped;
                further = Some(*descent);
            }
            Layer::Value { .. } => return in_frame(here, &[], further, name, looked_up),
            Layer::Frame { frame, .. } => {
                return in_frame(here, frame.base_path(), further, name, looked_up);
            }
        }
    }
}

// Returns the base path of the nearest of the frames from outside that are left where so many are skipped.
fn outside_path(frames: &VecDeque<BlockContext>, skipped: usize) -> &[String]
    ensures { names_in result.now ≡ names_at (drop skipped (frames_of frames.now.items)) }
{
    match outside_frame(frames, skipped) {
        Some(frame) => frame.base_path(),
        None => &[],
    }
}

// Returns what the name leads to from the member of an iteration. The value of any other layer is at the end of its descent.
fn at_member<'a>(
    node: &'a Json,
    kind: LayerKind<'_>,
    name: &String,
    looked_up: &LookedUp,
) -> Option<&'a Json>
    ensures { option_map (λ v. view v.now) result
        ≡ member_value (kind_view kind.entry) (view node.now) (string_bytes name.now) }
{
    match kind {
        LayerKind::Iteration { .. } => {
            looked_up.add(1);
            value_by_name(node, name)
        }
        LayerKind::With { .. } => None,
        LayerKind::Partial { .. } => None,
    }
}

// Returns what is found under the prefixes of a descent that have one name or more, from the value that it begins at.
fn in_descent<'r, 'a>(
    start: Scopes<'r, 'a>,
    base: &'a Json,
    descent: Option<&'r Descent<'r>>,
    name: &'r String,
    looked_up: &LookedUp,
) -> Option<(&'a Json, Route<'r, 'a>)>
    ensures found { option_map placed result ≡ beyond (view base.now)
        (names_at (frames_in start.entry)) (after_names descent.entry) (string_bytes name.now) }
    ensures given { IfSome result (λ hit. hit.1.start.given ≡ start.entry.given) }
{
    match descent {
        Some(descent) => {
            let walk = along_descent(descent, walk_from(base), name, looked_up);
            placed_at(start, walk.best)
        }
        None => None,
    }
}

// Returns a value below the base path of the nearest frame, with its route.
fn placed_at<'r, 'a>(
    start: Scopes<'r, 'a>,
    hit: Option<(Descent<'r>, &'a Json)>,
) -> Option<(&'a Json, Route<'r, 'a>)>
    ensures found { option_map placed result
        ≡ option_map (λ h. (names_at (frames_in start.entry) ++ h.0, h.1)) (option_map below hit.entry) }
    ensures given { IfSome result (λ hit. hit.1.start.given ≡ start.entry.given) }
{
    match hit {
        Some((descent, value)) => Some((value, Route { start, descent })),
        None => None,
    }
}

// Returns what is found in a frame whose base path is made of these names.
fn in_frame<'r, 'a>(
    start: Scopes<'r, 'a>,
    base: &'r [String],
    further: Option<&'r Descent<'r>>,
    name: &'r String,
    looked_up: &LookedUp,
) -> Option<(&'a Json, Route<'r, 'a>)>
    ensures found { names_in base.now ≡ names_at (frames_in start.entry)
        → option_map placed result ≡ under (given_in start.entry) []
        (names_at (frames_in start.entry) ++ after_names further.entry) (string_bytes name.now) }
    ensures given { IfSome result (λ hit. hit.1.start.given ≡ start.entry.given) }
{
    let walk = along_names(None, base, walk_from(start.given), name, looked_up);
    match in_reached(start, walk.node, further, name, looked_up) {
        Some(hit) => Some(hit),
        None => in_names(start, walk.best, name, looked_up),
    }
}

// Returns what is found under the prefixes of a descent that have one name or more, from the value that was reached, if there
// is one.
fn in_reached<'r, 'a>(
    start: Scopes<'r, 'a>,
    node: Option<&'a Json>,
    descent: Option<&'r Descent<'r>>,
    name: &'r String,
    looked_up: &LookedUp,
) -> Option<(&'a Json, Route<'r, 'a>)>
    ensures found { option_map placed result ≡ from_end (option_map (λ v. view v.now) node.entry)
        (names_at (frames_in start.entry)) (after_names descent.entry) (string_bytes name.now) }
    ensures given { IfSome result (λ hit. hit.1.start.given ≡ start.entry.given) }
{
    match node {
        Some(node) => in_descent(start, node, descent, name, looked_up),
        None => None,
    }
}

// Returns what was found under the names of a frame's base path, with its route from the data, or what the name leads to from
// the data.
fn in_names<'r, 'a>(
    start: Scopes<'r, 'a>,
    best: Option<(Descent<'r>, &'a Json)>,
    name: &'r String,
    looked_up: &LookedUp,
) -> Option<(&'a Json, Route<'r, 'a>)>
    ensures found { option_map placed result
        ≡ or_else (option_map below best.entry) (hit_at (given_in start.entry) [] (string_bytes name.now)) }
    ensures given { IfSome result (λ hit. hit.1.start.given ≡ start.entry.given) }
{
    match placed_at(start.root(), best) {
        Some(hit) => Some(hit),
        None => in_data(start, name, looked_up),
    }
}

// Returns what the name leads to from the data.
fn in_data<'r, 'a>(
    start: Scopes<'r, 'a>,
    name: &'r String,
    looked_up: &LookedUp,
) -> Option<(&'a Json, Route<'r, 'a>)>
    ensures found { option_map placed result ≡ hit_at (given_in start.entry) [] (string_bytes name.now) }
    ensures given { IfSome result (λ hit. hit.1.start.given ≡ start.entry.given) }
{
    looked_up.add(1);
    match value_by_name(start.given, name) {
        Some(value) => Some((value, route_after(start.root(), name))),
        None => None,
    }
}

// Returns the route to what the name leads to right after the base path of the nearest frame.
fn route_after<'r, 'a>(start: Scopes<'r, 'a>, name: &'r String) -> Route<'r, 'a>
    ensures names { route_names result ≡ names_at (frames_in start.entry) ++ string_bytes name.now ∷ [] }
    ensures given { result.start.given ≡ start.entry.given }
{
    Route {
        start,
        descent: Descent {
            after: None,
            bound: &[],
            rest: &[],
            last: Some(name),
        },
    }
}
