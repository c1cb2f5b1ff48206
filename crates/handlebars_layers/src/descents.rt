//! Recursive lookup along the names of one descent: a name under each prefix of them. The walk goes on from value to value, and
//! remembers what it found last, so that the longest prefix counts.

ghost use Rattle.std.specs.Prelude.{◌≡◌, ◌++◌, ◌∷◌, [], List, Some, option_map, string_bytes};
ghost use Rattle.serde_json.specs.Data.{Data};
ghost use Rattle.serde_json.specs.View.{view};
ghost use Rattle.handlebars_base.specs.Bytes.{Text};
ghost use Rattle.handlebars_base.specs.PathView.{segments_of};
ghost use Rattle.handlebars_scope.specs.Resolve.{names_of, or_else};
ghost use Rattle.handlebars_scope.specs.ResolutionView.{names_in};
ghost use Rattle.handlebars_layers.specs.Hits.{Walked, below};
ghost use Rattle.handlebars_layers.specs.LayerView.{after_names, after_of, descent_names, last_of};
ghost use Rattle.handlebars_layers.specs.Under.{hit_at};

use crate::layer::Descent;
use handlebars_base::json::path::PathSeg;
use handlebars_base::json::value::Json;
use handlebars_scope::context::looked_up::LookedUp;
use handlebars_scope::context::members::value_by_name;

/// How far a walk has come: what it found last, with the names from its start on, and the value that it has reached, if there
/// is one.
#[derive(Clone, Copy)]
pub struct Walk<'r, 'a> {
    pub best: Option<(Descent<'r>, &'a Json)>,
    pub node: Option<&'a Json>,
}

/// Begins a walk. The name is looked up after the first step, and not at its start.
pub fn walk_from<'r, 'a>(start: &'a Json) -> Walk<'r, 'a>
    ensures { (name : Text) → Walked (view start.now) name [] result }
{
    Walk {
        best: None,
        node: Some(start),
    }
}

/// Walks along the names of a descent.
pub fn along_descent<'r, 'a>(
    descent: &'r Descent<'r>,
    walk: Walk<'r, 'a>,
    name: &'r String,
    looked_up: &LookedUp,
) -> Walk<'r, 'a>
    ensures { (d : Data) → Walked d (string_bytes name.now) [] walk.entry
        → Walked d (string_bytes name.now) (descent_names descent.now) result }
{
    match descent.after {
        Some(after) => {
            let before = along_descent(after, walk, name, looked_up);
            along_own(descent, before, name, looked_up)
        }
        None => along_own(descent, walk, name, looked_up),
    }
}

// Walks along the names of a descent, after those of the descent before it.
fn along_own<'r, 'a>(
    descent: &'r Descent<'r>,
    walk: Walk<'r, 'a>,
    name: &'r String,
    looked_up: &LookedUp,
) -> Walk<'r, 'a>
    ensures { (d : Data) → Walked d (string_bytes name.now) (after_of descent.now) walk.entry
        → Walked d (string_bytes name.now) (descent_names descent.now) result }
{
    let bound = along_names(descent.after, descent.bound, walk, name, looked_up);
    let rest = along_segments(
        descent.after,
        descent.bound,
        descent.rest,
        bound,
        name,
        looked_up,
    );
    along_last(descent, rest, name, looked_up)
}

/// Walks along names that a name is bound to.
pub fn along_names<'r, 'a>(
    after: Option<&'r Descent<'r>>,
    bound: &'r [String],
    walk: Walk<'r, 'a>,
    name: &'r String,
    looked_up: &LookedUp,
) -> Walk<'r, 'a>
    ensures { (d : Data) → Walked d (string_bytes name.now) (after_names after.entry) walk.entry
        → Walked d (string_bytes name.now) (after_names after.entry ++ names_in bound.now) result }
{
    let mut here = walk;
    'names: for (index, link) in bound.iter().enumerate() {
        let so_far = Descent {
            after,
            bound: &bound[..index + 1],
            rest: &[],
            last: Some(name),
        };
        here = step(here, link, so_far, name, looked_up);
    }
    here
}

// Walks along the names of segments.
fn along_segments<'r, 'a>(
    after: Option<&'r Descent<'r>>,
    bound: &'r [String],
    rest: &'r [PathSeg],
    walk: Walk<'r, 'a>,
    name: &'r String,
    looked_up: &LookedUp,
) -> Walk<'r, 'a>
    ensures { (d : Data) → Walked d (string_bytes name.now) (after_names after.entry ++ names_in bound.now) walk.entry
        → Walked d (string_bytes name.now)
        ((after_names after.entry ++ names_in bound.now) ++ names_of (segments_of rest.now)) result }
{
    let mut here = walk;
    'segments: for (index, segment) in rest.iter().enumerate() {
        match segment {
            PathSeg::Named(link) => {
                let so_far = Descent {
                    after,
                    bound,
                    rest: &rest[..index + 1],
                    last: Some(name),
                };
                here = step(here, link, so_far, name, looked_up);
            }
            PathSeg::Ruled(_) => {}
        }
    }
    here
}

// Walks along the last name of a descent, if it has one.
fn along_last<'r, 'a>(
    descent: &'r Descent<'r>,
    walk: Walk<'r, 'a>,
    name: &'r String,
    looked_up: &LookedUp,
) -> Walk<'r, 'a>
    ensures { (d : Data) (before : List Text) → descent_names descent.now ≡ before ++ last_of descent.now
        → Walked d (string_bytes name.now) before walk.entry
        → Walked d (string_bytes name.now) (descent_names descent.now) result }
{
    match descent.last {
        Some(link) => {
            let so_far = Descent {
                after: Some(descent),
                bound: &[],
                rest: &[],
                last: Some(name),
            };
            step(walk, link, so_far, name, looked_up)
        }
        None => walk,
    }
}

// Walks along one more name. `so_far` has the names up to it, and the name that is looked up after them.
fn step<'r, 'a>(
    walk: Walk<'r, 'a>,
    link: &String,
    so_far: Descent<'r>,
    name: &String,
    looked_up: &LookedUp,
) -> Walk<'r, 'a>
    ensures { (d : Data) (before : List Text)
        → descent_names so_far.entry ≡ (before ++ string_bytes link.now ∷ []) ++ string_bytes name.now ∷ []
        → Walked d (string_bytes name.now) before walk.entry
        → Walked d (string_bytes name.now) (before ++ string_bytes link.now ∷ []) result }
{
    let Some(here) = walk.node else {
        return walk;
    };
    looked_up.add(1);
    match value_by_name(here, link) {
        Some(next) => {
            looked_up.add(1);
            Walk {
                best: hit_or(next, so_far, name, walk.best),
                node: Some(next),
            }
        }
        None => Walk {
            best: walk.best,
            node: None,
        },
    }
}

// Returns what the name leads to from here, or what was found before.
fn hit_or<'r, 'a>(
    here: &'a Json,
    so_far: Descent<'r>,
    name: &String,
    before: Option<(Descent<'r>, &'a Json)>,
) -> Option<(Descent<'r>, &'a Json)>
    ensures { (names : List Text) → descent_names so_far.entry ≡ names ++ string_bytes name.now ∷ []
        → option_map below result ≡ or_else (hit_at (view here.now) names (string_bytes name.now)) (option_map below before.entry) }
{
    match value_by_name(here, name) {
        Some(value) => Some((so_far, value)),
        None => before,
    }
}
