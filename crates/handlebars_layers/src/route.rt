//! The route to what a path leads to.

ghost use Rattle.std.specs.Prelude.{◌≡◌, IfSome, string_bytes};
ghost use Rattle.handlebars_base.specs.PathView.{reference_of, segments_of};
ghost use Rattle.handlebars_scope.specs.Resolve.{found_by, navigate, resolve, under_prefix};
ghost use Rattle.handlebars_layers.specs.Chain.{names_at};
ghost use Rattle.handlebars_layers.specs.Destination.{frames_in, given_in};
ghost use Rattle.handlebars_layers.specs.Sought.{RoutesTo};

use crate::destination::Route;
use crate::layer::Descent;
use crate::prefixes::longest;
use crate::resolution::{Resolution, resolution_of};
use crate::scopes::Scopes;
use handlebars_base::json::path::{Path, PathSeg};
use handlebars_scope::context::looked_up::LookedUp;

/// Returns the route to what a path leads to, if that is a value of the data. Only with recursive lookup the data are looked at.
#[inline(never)]
pub fn route_to<'r, 'a>(
    scopes: Scopes<'r, 'a>,
    recursive: bool,
    path: &'r Path,
) -> Option<Route<'r, 'a>>
    ensures routes { RoutesTo (resolve recursive (frames_in scopes.entry) (reference_of path.now) (given_in scopes.entry)) result }
    ensures given { IfSome result (λ route. route.start.given ≡ scopes.entry.given) }
{
    match path {
        Path::Relative((segments, _)) => route_along(scopes, recursive, segments.as_slice()),
        Path::Local(_) => None,
    }
}

// Returns the route to what segments lead to, if that is a value of the data.
#[inline(always)]
fn route_along<'r, 'a>(
    scopes: Scopes<'r, 'a>,
    recursive: bool,
    segments: &'r [PathSeg],
) -> Option<Route<'r, 'a>>
    ensures routes { RoutesTo (navigate recursive (frames_in scopes.entry) (segments_of segments.now) (given_in scopes.entry)) result }
    ensures given { IfSome result (λ route. route.start.given ≡ scopes.entry.given) }
{
    match resolution_of(scopes, recursive, segments) {
        Resolution::Along { start, bound, rest } => Some(Route {
            start,
            descent: Descent {
                after: None,
                bound,
                rest,
                last: None,
            },
        }),
        Resolution::UnderPrefix { start, name } => route_under_prefix(start, name),
        Resolution::Within(_, _) => None,
    }
}

// Returns the route to what a name leads to under the longest prefix. What is looked up for it isn't counted.
fn route_under_prefix<'r, 'a>(scopes: Scopes<'r, 'a>, name: &'r String) -> Option<Route<'r, 'a>>
    ensures routes { RoutesTo (found_by (under_prefix (names_at (frames_in scopes.entry)) (string_bytes name.now)) (given_in scopes.entry)) result }
    ensures given { IfSome result (λ route. route.start.given ≡ scopes.entry.given) }
{
    let uncounted = LookedUp::new();
    match longest(scopes, name, &uncounted) {
        Some((_, route)) => Some(route),
        None => None,
    }
}
