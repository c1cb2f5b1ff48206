//! The iterations of `each`, one after the other.

ghost use Rattle.std.specs.Prelude.{◌≡◌, option_map};
ghost use Rattle.serde_json.specs.Data.{array, object};
ghost use Rattle.serde_json.specs.View.{items_view, members_view, view};
ghost use Rattle.handlebars_helpers.specs.Iterations.{iterations_of};
ghost use Rattle.handlebars_helpers.specs.IterationsLeft.{iterations_with};
ghost use Rattle.handlebars_helpers.specs.View.{iteration_view, iterations_left};

mod state;

use crate::iteration::Iteration;
use handlebars_base::json::value::Json;
use serde_json::Map;
pub use state::Iterations;
use state::MembersLeft;

impl<'h> Iterations<'h> {
    /// Returns the iterations of a value: those of its items or members; any other value has none.
    pub fn of(value: &'h Json) -> Iterations<'h>
        ensures { iterations_left result ≡ iterations_of (view value.now) }
    {
        match value {
            Json::Array(items) => Iterations::of_items(items),
            Json::Object(members) => Iterations::of_members(members),
            _ => Iterations {
                index: 0,
                count: 0,
                left: MembersLeft::OfArray([].iter()),
            },
        }
    }

    /// Returns the iterations of an array.
    pub fn of_items(items: &'h Vec<Json>) -> Iterations<'h>
        ensures { iterations_left result ≡ iterations_of (array (items_view items.now.items)) }
    {
        Iterations {
            index: 0,
            count: items.len(),
            left: MembersLeft::OfArray(items.iter()),
        }
    }

    /// Returns the iterations of an object.
    pub fn of_members(members: &'h Map<String, Json>) -> Iterations<'h>
        ensures { iterations_left result ≡ iterations_of (object (members_view members.now.entries)) }
    {
        Iterations {
            index: 0,
            count: members.len(),
            left: MembersLeft::OfObject(members.iter()),
        }
    }

    /// Returns the next iteration, if one is left. Runs in O(1) for an array, in amortized O(1) for an object.
    /// Does not allocate.
    #[inline(always)]
    pub fn next(&mut self) -> Option<Iteration<'h>>
        ensures { iterations_left self.old
            ≡ iterations_with (option_map iteration_view result) (iterations_left self.new) }
    {
        let (key, member) = self.left.next()?;
        let (index, count) = (self.index, self.count);
        self.index = index + 1;
        Some(Iteration {
            index,
            key,
            last: index + 1 == count,
            member,
        })
    }
}
