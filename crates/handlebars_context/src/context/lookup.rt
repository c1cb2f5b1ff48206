//! What paths lead to in the scope frames of a context and in the data.

ghost use Rattle.std.specs.Prelude.{◌≡◌, ◌≢◌, IfOk, IfErr, false, true};
ghost use Rattle.handlebars_base.specs.Answers.{Answers, gives, fails};
ghost use Rattle.handlebars_base.specs.PathView.{reference_of};
ghost use Rattle.handlebars_base.specs.Reasons.{out_of_memory};
ghost use Rattle.handlebars_base.specs.RenderRefusals.{reason_in, refusal_of};
ghost use Rattle.handlebars_base.specs.Scoped.{found_of, is_constant};
ghost use Rattle.handlebars_scope.specs.Contexts.{data_of};
ghost use Rattle.handlebars_scope.specs.Resolve.{resolve};
ghost use Rattle.handlebars_scope.specs.ResolutionView.{names_in};
ghost use Rattle.handlebars_semantics.specs.Values.{Evaluates};
ghost use Rattle.handlebars_layers.specs.Binding.{MayBind};
ghost use Rattle.handlebars_layers.specs.Chain.{frames, is_no_layer, is_outside};
ghost use Rattle.handlebars_layers.specs.LayerView.{chain_of};
ghost use Rattle.handlebars_layers.specs.Destination.{IsDestination, names_found};
ghost use Rattle.handlebars_layers.specs.declared.destination.Destination.TheVariants.{Node};
ghost use Rattle.handlebars_context.specs.View.{state_of};

use crate::context::{RenderContext, internal};
use handlebars_base::error::RenderError;
use handlebars_base::json::path::Path;
use handlebars_base::json::value::{Json, ScopedJson};
use handlebars_layers::destination::{Destination, Reached};
use handlebars_layers::innermost::{Innermost, binds_any};
use handlebars_layers::layer::Layer;
use handlebars_layers::lookup::resolve;
use handlebars_layers::made::{json_of, path_of};
use handlebars_scope::context::Context;
use handlebars_scope::context::looked_up::LookedUp;
use handlebars_scope::context::reached::wrong_index;
use std::alloc::{AllocError, Global};

impl RenderContext {
    /// Returns what a text leads to, as a path, in the scope frames and the data.
    ///
    /// # Errors
    ///
    /// Fails with `InvalidJsonPath` if the text is not a path, with the error of the lookup if that fails, or if memory runs
    /// out. The context is unchanged.
    pub fn evaluate<'rc>(
        &self,
        context: &'rc Context,
        path: &str,
    ) -> Result<ScopedJson<'rc>, RenderError>
        ensures ok { IfOk result (λ found. Evaluates (state_of self.now).recursive (state_of self.now).blocks
            (data_of context.now) path.now (gives (found_of found))) }
        ensures err { IfErr result (λ e. reason_in e ≢ out_of_memory
            → Evaluates (state_of self.now).recursive (state_of self.now).blocks
            (data_of context.now) path.now (fails (refusal_of e))) }
        ensures plain { IfOk result (λ found. is_constant found ≡ false) }
    {
        let reference = Path::parse(self.alloc, path)?;
        let before = internal::all_looked_up(self);
        let found = self.find(context, &reference);
        internal::count_as_evaluation(self, before);
        found
    }

    // Returns what a path leads to in the scope frames and this data, with its full path if it is a value of the data. A value of
    // a frame is copied.
    pub(super) fn find<'r, 'a: 'r>(
        &'r self,
        given: &'a Context,
        path: &'r Path,
    ) -> Result<ScopedJson<'a>, RenderError>
        ensures found { Answers found_of result
            (resolve (state_of self.now).recursive (state_of self.now).blocks (reference_of path.now) (data_of given.now)) }
        ensures plain { IfOk result (λ found. is_constant found ≡ false) }
    {
        let root = &Layer::root();
        let outermost = &Layer::outside(&self.blocks);
        find_outside(
            self.alloc,
            given,
            &*outermost,
            &*root,
            binds_any(&self.blocks),
            self.run.recursive_lookup,
            path,
            &self.run.looked_up,
        )
    }

    /// Returns how many members of the data the renderings with this context looked up for paths, from the data itself or from
    /// the node of a scope frame. The count is exact as long as, with that of evaluations, it is below 2^64.
    pub fn looked_up(&self) -> u64 {
        let evaluations = self.evaluation_looked_up();
        internal::all_looked_up(self).saturating_sub(evaluations)
    }

    /// Returns how many members of the data were looked up for paths by `evaluate`, and by `Evaluable::eval` with this context.
    pub fn evaluation_looked_up(&self) -> u64 {
        self.evaluation_looked_up.members()
    }
}

// Returns what a path leads to from the frames from outside, with its full path if it is a value of the data. A value of a frame
// is copied.
fn find_outside<'r, 'a: 'r>(
    alloc: Global,
    given: &'a Context,
    outermost: &'r Layer<'r, 'a>,
    root: &'r Layer<'r, 'a>,
    binds: bool,
    recursive: bool,
    path: &'r Path,
    looked_up: &LookedUp,
) -> Result<ScopedJson<'a>, RenderError>
    requires root { is_no_layer (chain_of root.now) ≡ true }
    requires outside { is_outside (chain_of outermost.now) ≡ true }
    requires binds { MayBind binds (frames (chain_of outermost.now)) }
    ensures found { Answers found_of result
        (resolve recursive (frames (chain_of outermost.now)) (reference_of path.now) (data_of given.now)) }
    ensures plain { IfOk result (λ found. is_constant found ≡ false) }
{
    let innermost = Innermost::outside(given, outermost, root, binds);
    match resolve(innermost.scopes(), recursive, path, looked_up) {
        Destination::Node(value) => {
            let names = names_to(
                alloc,
                value,
                &*given,
                &*outermost,
                &*root,
                binds,
                recursive,
                path,
            )?;
            Ok(ScopedJson::Context(value, names))
        }
        Destination::Value(value) => Ok(ScopedJson::Derived(json_of(value, alloc)?)),
        Destination::Nothing => Ok(ScopedJson::Missing),
        Destination::NoIndex(name) => Err(wrong_index(alloc, name)),
    }
}

// Returns the names that lead to a value of the data, which a path leads to from the frames from outside.
fn names_to<'r>(
    alloc: Global,
    value: &'r Json,
    given: &'r Context,
    outermost: &'r Layer<'r, 'r>,
    root: &'r Layer<'r, 'r>,
    binds: bool,
    recursive: bool,
    path: &'r Path,
) -> Result<Vec<String>, AllocError>
    requires root { is_no_layer (chain_of root.now) ≡ true }
    requires outside { is_outside (chain_of outermost.now) ≡ true }
    requires binds { MayBind binds (frames (chain_of outermost.now)) }
    requires found { IsDestination (resolve recursive (frames (chain_of outermost.now)) (reference_of path.now) (data_of given.now)) (Node value) }
    ensures { IfOk result (λ names. names_in names.items ≡ names_found
        (resolve recursive (frames (chain_of outermost.now)) (reference_of path.now) (data_of given.now))) }
{
    let innermost = Innermost::outside(&*given, &*outermost, &*root, binds);
    path_of(
        Reached::new(&*value, &innermost, &*path, recursive).route(),
        alloc,
    )
}
