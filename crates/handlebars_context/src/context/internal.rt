//! What renderings take from a context and put back, and callers may not. These are functions and not methods, so that
//! `handlebars`, which re-exports the type, doesn't re-export them.

ghost use Rattle.std.specs.Prelude.{◌≡◌, IfOk, false};
ghost use Rattle.handlebars_base.specs.Answers.{Answers};
ghost use Rattle.handlebars_base.specs.PathView.{reference_of};
ghost use Rattle.handlebars_base.specs.Scoped.{found_of, is_constant};
ghost use Rattle.handlebars_scope.specs.Contexts.{data_of};
ghost use Rattle.handlebars_scope.specs.Resolve.{resolve};
ghost use Rattle.handlebars_scope.specs.ScopeView.{frames_of, partials_named};
ghost use Rattle.handlebars_semantics.specs.State.{nearest_as};
ghost use Rattle.handlebars_layers.specs.ScopeFrames.{set_partials};
ghost use Rattle.handlebars_context.specs.View.{has_failed, root_of, state_of, state_over, HasSameModes, IsTaken, IsUnchanged};
ghost use Rattle.handlebars_context.specs.declared.context.RenderContext.{RenderContext};
ghost use Rattle.handlebars_values.specs.declared.run.Run.{Run};

use crate::context::{RenderContext, first_run};
use handlebars_base::error::RenderError;
use handlebars_base::json::path::Path;
use handlebars_base::json::value::ScopedJson;
use handlebars_layers::partials::Partials;
use handlebars_scope::block::BlockContext;
use handlebars_scope::context::Context;
use handlebars_template::template::Template;
use handlebars_values::run::Run;
use std::alloc::Global;
use std::collections::{BTreeMap, VecDeque};
use std::mem;
use std::rc::Rc;

/// Takes the scope frames and the run out of a context, for a rendering. The partials of the nearest frame are moved into the
/// run. `restore` puts them back. Until then the context has no frame and a run at its start.
pub fn take(rc: &mut RenderContext) -> (VecDeque<BlockContext>, Run)
    ensures { IsTaken rc.old result.0.items result.1 rc.new }
{
    let mut blocks = mem::replace(&mut rc.blocks, VecDeque::new(rc.alloc));
    let mut run = mem::replace(&mut rc.run, first_run(rc.alloc));
    let nearest = take_nearest_partials(rc.alloc, &mut blocks);
    run.partials = Partials::over(nearest, rc.alloc);
    (blocks, run)
}

/// Puts scope frames and a run into a context, after a rendering. The partials that are set in the run for the nearest frame
/// are moved into that frame. Others of the run are dropped.
pub fn restore(rc: &mut RenderContext, blocks: VecDeque<BlockContext>, run: Run)
    ensures state { state_of rc.new ≡ state_over blocks.items run }
    ensures root { root_of rc.new ≡ root_of rc.old }
    ensures failed { has_failed rc.new ≡ has_failed rc.old }
    ensures unchanged { (before : RenderContext) (r : Run) → IsTaken before blocks.items r rc.old → HasSameModes r run
        → IsUnchanged before rc.new }
{
    let mut blocks = blocks;
    let mut run = run;
    let partials = mem::replace(&mut run.partials, Partials::new(rc.alloc));
    set_nearest_partials(&mut blocks, partials.into_ground());
    rc.blocks = blocks;
    rc.run = run;
}

// Takes the partials out of the nearest frame, if there is one.
fn take_nearest_partials(
    alloc: Global,
    blocks: &mut VecDeque<BlockContext>,
) -> BTreeMap<String, Rc<Template>>
    ensures { nearest_as (set_partials (partials_named result)) (frames_of blocks.new.items) ≡ frames_of blocks.old.items }
{
    match blocks.front_mut() {
        Some(block) => block.take_local_partials(),
        None => BTreeMap::new(alloc),
    }
}

// Registers these partials in the nearest frame, if there is one, and no others.
fn set_nearest_partials(
    blocks: &mut VecDeque<BlockContext>,
    partials: BTreeMap<String, Rc<Template>>,
)
    ensures { frames_of blocks.new.items ≡ nearest_as (set_partials (partials_named partials)) (frames_of blocks.old.items) }
{
    if let Some(block) = blocks.front_mut() {
        block.set_local_partials(partials);
    }
}

/// Returns what a path leads to in the scope frames of a context and this data, with its full path if it is a value of the data. A
/// value of a frame is copied.
///
/// # Errors
///
/// Fails with `InvalidJsonIndex` for a name in the path that isn't an index, and if memory runs out.
pub fn find<'r, 'a: 'r>(
    rc: &'r RenderContext,
    given: &'a Context,
    path: &'r Path,
) -> Result<ScopedJson<'a>, RenderError>
    ensures found { Answers found_of result
        (resolve (state_of rc.now).recursive (state_of rc.now).blocks (reference_of path.now) (data_of given.now)) }
    ensures plain { IfOk result (λ found. is_constant found ≡ false) }
{
    rc.find(given, path)
}

/// Returns how many members of the data were looked up for paths, by renderings and by evaluations.
pub fn all_looked_up(rc: &RenderContext) -> u64 {
    rc.run.looked_up.members()
}

/// Counts the members that were looked up since there were `before` as those of an evaluation.
pub fn count_as_evaluation(rc: &RenderContext, before: u64) {
    let added = all_looked_up(rc).saturating_sub(before);
    rc.evaluation_looked_up.add(added as usize);
}
