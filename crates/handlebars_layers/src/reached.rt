//! Values of the data, and how they were reached.

ghost use Rattle.serde_json.specs.View.{view};
ghost use Rattle.handlebars_layers.specs.Sought.{IsWalked, IsWalked-prop, sought};

use crate::destination::Route;
use crate::innermost::Innermost;
use crate::route::route_to;
use handlebars_base::json::path::Path;
use handlebars_base::json::value::Json;

/// A value of the data and how it was reached: a path leads to it from the innermost frame.
#[derive(Clone, Copy)]
pub struct Reached<'r> {
    pub value: &'r Json,
    pub innermost: &'r Innermost<'r, 'r>,
    pub path: &'r Path,
    pub recursive: bool,
    pub ghost leads: { IsWalked (sought recursive innermost.now path.now) (view value.now) } by { IsWalked-prop (sought recursive innermost.now path.now) (view value.now) },
}

impl<'r> Reached<'r> {
    ghost use Rattle.std.specs.Prelude.{◌≡◌};
    ghost use Rattle.serde_json.specs.View.{view};
    ghost use Rattle.handlebars_scope.specs.Contexts.{data_of};
    ghost use Rattle.handlebars_scope.specs.Resolve.{value_at};
    ghost use Rattle.handlebars_layers.specs.Chain.{IsValue};
    ghost use Rattle.handlebars_layers.specs.Destination.{IsDestination, given_in, route_names};
    ghost use Rattle.handlebars_layers.specs.Reached.{reached_names};
    ghost use Rattle.handlebars_layers.specs.Sought.{sought};
    ghost use Rattle.handlebars_layers.specs.declared.destination.Destination.TheVariants.{Node};

    /// Creates a reached value of what `resolve` found.
    #[inline(always)]
    pub fn new(
        value: &'r Json,
        innermost: &'r Innermost<'r, 'r>,
        path: &'r Path,
        recursive: bool,
    ) -> Reached<'r>
        requires found { IsDestination (sought recursive innermost.now path.now) (Node value) }
        ensures value { result.value ≡ value.entry }
        ensures innermost { result.innermost ≡ innermost.entry }
        ensures path { result.path ≡ path.entry }
        ensures recursive { result.recursive ≡ recursive }
    {
        Reached {
            value,
            innermost,
            path,
            recursive,
        }
    }

    /// Returns the route to the value. Its names are those that lead to the value from the data. Only with recursive lookup
    /// the data are looked at.
    #[inline(always)]
    pub fn route(self) -> Route<'r, 'r>
        ensures names { route_names result ≡ reached_names self.entry }
        ensures given { given_in result.start ≡ data_of self.entry.innermost.now.given.now }
        ensures there { IsValue (value_at (data_of self.entry.innermost.now.given.now) (route_names result)) (view self.entry.value.now) }
    {
        match route_to(self.innermost.scopes(), self.recursive, self.path) {
            Some(route) => route,
            None => unreachable!(),
        }
    }
}
