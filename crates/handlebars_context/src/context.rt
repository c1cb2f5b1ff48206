//! The state that a caller has of its renderings.

ghost use Rattle.std.specs.Prelude.{◌≡◌, ◌∷◌, [], not, IfOk, List, OnOk, OnErr, false, map, option_map, slice_get, string_bytes, true};
ghost use Rattle.std.specs.Borrow.{sem};
ghost use Rattle.serde_json.specs.View.{view};
ghost use Rattle.handlebars_template.specs.TreeView.{tree_view};
ghost use Rattle.handlebars_scope.specs.Contexts.{data_of};
ghost use Rattle.handlebars_scope.specs.Scopes.{Frame, empty_frame};
ghost use Rattle.handlebars_scope.specs.ScopeView.{frame_of, frames_of};
ghost use Rattle.handlebars_helpers.specs.UserView.{local_of};
ghost use Rattle.handlebars_semantics.specs.State.{push_frame, first_state, pop_frame, partial_in, with_data, with_local, without_local};
ghost use Rattle.handlebars_values.specs.RunView.{run_state};
ghost use Rattle.handlebars_context.specs.Borrowing.{BorrowsBlock};
ghost use Rattle.handlebars_context.specs.View.{state_of, root_of, has_failed, IsUnchanged};

pub mod internal;
mod lines;
mod lookup;
mod names;

use handlebars_base::json::value::Json;
use handlebars_helpers::user::LocalHelper;
use handlebars_layers::partials::Partials;
use handlebars_scope::block::BlockContext;
use handlebars_scope::context::Context;
use handlebars_scope::context::looked_up::LookedUp;
use handlebars_scope::line::LineState;
use handlebars_template::template::Template;
use handlebars_values::run::Run;
use std::alloc::{AllocError, Global};
use std::collections::VecDeque;
use std::mem;
use std::rc::Rc;

/// The state of a rendering: what templates change while they are rendered, the data that decorators set instead of the given
/// data, and what decorators bind to names.
pub struct RenderContext {
    alloc: Global,
    root_template: Option<String>,
    failed: bool,
    // The scope frames, nearest first, with their partials.
    blocks: VecDeque<BlockContext>,
    // The partials of the run are not used. Those of the frames are.
    run: Run,
    // How many of the members that were looked up in the data were looked up by evaluations.
    evaluation_looked_up: LookedUp,
}

// Implemented explicitly, so that dropping one is a single call.
impl Drop for RenderContext {
    fn drop(self) {
        let RenderContext {
            alloc: _,
            root_template: _,
            failed: _,
            blocks: _,
            run: _,
            evaluation_looked_up: _,
        } = self;
    }
}

impl RenderContext {
    /// Returns the state at the start of a run. `root_template` is the name of the template that the run begins with, if it has
    /// one.
    ///
    /// # Errors
    ///
    /// Fails if memory runs out.
    pub fn new(alloc: Global, root_template: Option<&String>) -> Result<RenderContext, AllocError>
        ensures state { IfOk result (λ rc. state_of rc ≡ first_state false) }
        ensures root { IfOk result (λ rc. root_of rc ≡ option_map (λ name. string_bytes name.now) root_template.entry) }
        ensures ready { IfOk result (λ rc. has_failed rc ≡ false) }
    {
        let root_template = match root_template {
            Some(name) => Some(name.clone()?),
            None => None,
        };
        let blocks = first_blocks(alloc)?;
        Ok(RenderContext {
            alloc,
            root_template,
            failed: false,
            blocks,
            run: first_run(alloc),
            evaluation_looked_up: LookedUp::new(),
        })
    }

    /// Returns whether a rendering in this context has failed. Later renderings in it then fail too.
    pub fn has_failed(&self) -> bool
        ensures { result ≡ has_failed self.now }
    {
        self.failed
    }

    /// Makes a scope frame the nearest one.
    ///
    /// # Errors
    ///
    /// Fails if memory runs out. The context is then unchanged, and the frame is dropped.
    pub fn push_block(&mut self, block: BlockContext) -> Result<(), AllocError>
        ensures ok { OnOk result (state_of self.new ≡ push_frame (frame_of block) (state_of self.old)) }
        ensures err { OnErr result (state_of self.new ≡ state_of self.old) }
        ensures root { root_of self.new ≡ root_of self.old }
        ensures failed { has_failed self.new ≡ has_failed self.old }
    {
        self.blocks.push_front(block)?;
        Ok(())
    }

    /// Removes the nearest scope frame, if there is one.
    pub fn pop_block(&mut self)
        ensures state { state_of self.new ≡ pop_frame (state_of self.old) }
        ensures root { root_of self.new ≡ root_of self.old }
        ensures failed { has_failed self.new ≡ has_failed self.old }
    {
        self.blocks.pop_front();
    }

    /// Returns the nearest scope frame, or `None` if there is none.
    pub fn block(&self) -> Option<&BlockContext>
        ensures { option_map (λ b. frame_of b.now) result ≡ slice_get (state_of self.now).blocks 0 }
    {
        self.blocks.front()
    }

    /// Returns a mutable reference to the nearest scope frame, or `None` if there is none.
    pub fn block_mut(&mut self) -> Option<&mut BlockContext>
        ensures* writes_back { sem 𝓛 (BorrowsBlock self.entry result) }
        ensures value { option_map (λ b. frame_of b.now) result ≡ slice_get (state_of self.old).blocks 0 }
    {
        self.blocks.front_mut()
    }

    /// Replaces the scope frames by others, nearest first, and returns the old ones.
    pub fn replace_blocks(&mut self, blocks: VecDeque<BlockContext>) -> VecDeque<BlockContext>
        ensures replaced { frames_of result.items ≡ (state_of self.old).blocks }
        ensures state { state_of self.new ≡ record (state_of self.old) { blocks = frames_of blocks.items } }
        ensures root { root_of self.new ≡ root_of self.old }
        ensures failed { has_failed self.new ≡ has_failed self.old }
    {
        mem::replace(&mut self.blocks, blocks)
    }

    /// Sets whether lookup is recursive.
    pub fn set_recursive_lookup(&mut self, enabled: bool)
        ensures state { state_of self.new ≡ record (state_of self.old) { recursive = enabled } }
        ensures root { root_of self.new ≡ root_of self.old }
        ensures failed { has_failed self.new ≡ has_failed self.old }
    {
        self.run.recursive_lookup = enabled;
    }

    /// Returns the partial of a name that a decorator set: the one of the nearest scope frame that has one.
    pub fn get_partial(&self, name: &str) -> Option<&Template>
        ensures { option_map (λ t. tree_view t.now) result ≡ partial_in (state_of self.now).blocks name.now }
    {
        match self.shared_partial(name) {
            Some(template) => Some(&**template),
            None => None,
        }
    }

    // Returns the partial of a name, as the scope frame that has it shares it.
    fn shared_partial(&self, name: &str) -> Option<&Rc<Template>>
        ensures { option_map (λ t. tree_view t.now.value) result ≡ partial_in (state_of self.now).blocks name.now }
    {
        for at in 0..self.blocks.len() {
            let Some(block) = self.block_at(at) else {
                return None;
            };
            if let Some(template) = block.get_local_partial(name) {
                return Some(template);
            }
        }
        None
    }

    // Returns the frame at this distance from the nearest one, outwards, if it exists.
    fn block_at(&self, at: usize) -> Option<&BlockContext>
        ensures { option_map (λ b. frame_of b.now) result ≡ slice_get (state_of self.now).blocks at }
    {
        self.blocks.get(at)
    }

    /// Returns the data that a decorator set instead of the given data, if one did.
    pub fn context(&self) -> Option<&Context>
        ensures { option_map (λ c. data_of c.now) result ≡ (state_of self.now).changed }
    {
        self.run.changed.as_ref()
    }

    /// Replaces the given data by this data. Values of it have no path, and a missing one is null.
    pub fn set_context(&mut self, context: Context)
        ensures state { state_of self.new ≡ with_data (data_of context) (state_of self.old) }
        ensures unchanged { IsUnchanged self.old self.new }
    {
        self.run.changed = Some(context);
    }

    /// Binds `name` to the helper that is registered under another name. Calls of `name` then go to that helper, with the
    /// constants before their parameters.
    ///
    /// # Errors
    ///
    /// Fails if memory runs out. The context is then unchanged.
    pub fn register_local_helper(
        &mut self,
        name: &str,
        registered: &str,
        constants: Vec<Json>,
    ) -> Result<(), AllocError>
        ensures ok { OnOk result (state_of self.new ≡ with_local name.now (record {
          registered = registered.now;
          constants = map view constants.items;
        })
            (state_of self.old)) }
        ensures err { OnErr result (state_of self.new ≡ state_of self.old) }
        ensures unchanged { IsUnchanged self.old self.new }
    {
        let name = String::from_str(self.alloc, name)?;
        let registered = String::from_str(self.alloc, registered)?;
        self.run.bind_helper(
            name,
            LocalHelper {
                registered,
                constants,
            },
        )
    }

    /// Removes the local helper of a name, if there is one.
    pub fn unregister_local_helper(&mut self, name: &str)
        ensures state { state_of self.new ≡ without_local name.now (state_of self.old) }
        ensures unchanged { IsUnchanged self.old self.new }
    {
        self.run.unbind_helper(name);
    }

    /// Returns the local helper of a name, if there is one.
    pub fn get_local_helper(&self, name: &str) -> Option<&LocalHelper>
        ensures { option_map (λ l. local_of l.now) result ≡ (state_of self.now).local name.now }
    {
        self.run.local_helper(name)
    }

    /// Returns whether values are written as they are, without escaping.
    pub fn is_disable_escape(&self) -> bool
        ensures { result ≡ not (state_of self.now).escapes }
    {
        !self.run.escapes
    }

    /// Sets whether values are written as they are, without escaping.
    pub fn set_disable_escape(&mut self, disable: bool)
        ensures state { state_of self.new ≡ record (state_of self.old) { escapes = not disable } }
        ensures root { root_of self.new ≡ root_of self.old }
        ensures failed { has_failed self.new ≡ has_failed self.old }
    {
        self.run.escapes = !disable;
    }

    // Marks the context as failed. Later renderings in it fail.
    pub(super) fn fail(&mut self)
        ensures { self.new ≡ record self.old { failed = true } }
    {
        self.failed = true;
    }
}

// Creates the run of a context at its start.
fn first_run(alloc: Global) -> Run
    ensures { (fs : List Frame) → run_state fs result ≡ record (first_state false) { blocks = fs } }
{
    Run::start(alloc, false, LineState::first(), true, Partials::new(alloc))
}

// Creates the scope frames of a context at its start: an empty one.
fn first_blocks(alloc: Global) -> Result<VecDeque<BlockContext>, AllocError>
    ensures { IfOk result (λ blocks. frames_of blocks.items ≡ empty_frame ∷ []) }
{
    let mut blocks = VecDeque::new(alloc);
    blocks.push_front(BlockContext::new(alloc))?;
    Ok(blocks)
}
