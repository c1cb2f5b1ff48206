//! The items of a build: where they come from, and over what their templates are rendered.

mod list;
mod path;
mod stream;

ghost use Rattle.std.specs.Prelude.{◌≡◌, IfOk, Bool, Option, false, option_map};
ghost use Rattle.serde_json.specs.Data.{Data};
ghost use Rattle.handlebars_scope.specs.Contexts.{data_of};
ghost use Rattle.handlebars_semantics.specs.State.{State};
ghost use Rattle.handlebars_context.specs.View.{state_of, has_failed};
ghost use Rattle.hb.specs.Items.{Advances, Rewinds};

use handlebars::{Context, RenderContext};
use hb_command::failure::Failure;
pub use list::ListItems;
pub use path::PathItems;
use std::alloc::{AllocError, Global};
pub use stream::StreamItems;

/// The items, one after another. `rewind` and then `advance` lead to the first one.
pub trait Items {
    // From this state a rewind may succeed, or not, and lead to that state.
    ghost rewinds: { Self → Bool → Self → Type 0 };

    // From this state an advance may give this answer, or none, and lead to that state.
    ghost advances: { Self → Option Bool → Self → Type 0 };

    // From this state a skip may give this answer, or none, and lead to that state.
    ghost skips: { Self → Option Bool → Self → Type 0 };

    // The data over which the templates of the current item are rendered, if there is an item.
    ghost given: { Self → Option Data };

    // The state in which a template of the current item is rendered.
    ghost begins: { Self → State };

    /// Goes back to before the first item.
    fn rewind(&mut self) -> Result<(), Failure>
        ensures { Rewinds rewinds self.old result self.new };

    /// Goes to the next item. Returns whether there is one.
    fn advance(&mut self) -> Result<bool, Failure>
        ensures { Advances advances self.old result self.new };

    /// Goes past the next item, which isn't read further than that takes. Returns whether there was one.
    fn skip(&mut self) -> Result<bool, Failure>
        ensures { Advances skips self.old result self.new };

    /// Returns the data over which the templates of the current item are rendered, if there is an item.
    fn data(&self) -> Option<&Context>
        ensures { option_map (λ c. data_of c.now) result ≡ given self.now };

    /// Returns the context in which a template of the current item is rendered.
    fn context(&self, alloc: Global) -> Result<RenderContext, AllocError>
        ensures state { IfOk result (λ rc. state_of rc ≡ begins self.now) }
        ensures ready { IfOk result (λ rc. has_failed rc ≡ false) };
}
