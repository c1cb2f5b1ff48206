//! Rendering the bodies of `each` and `with`, and of user-defined helpers, in scope frames.

ghost use Rattle.std.specs.Prelude.{◌≡◌, ℕ, Bool, Some, option_map};
ghost use Rattle.serde_json.specs.View.{view};
ghost use Rattle.handlebars_template.specs.TreeView.{call_view};
ghost use Rattle.handlebars_scope.specs.Contexts.{data_of};
ghost use Rattle.handlebars_scope.specs.Scopes.{at_path, at_value, empty_frame};
ghost use Rattle.handlebars_scope.specs.ScopeView.{frame_of};
ghost use Rattle.handlebars_helpers.specs.CallView.{CallView};
ghost use Rattle.handlebars_helpers.specs.Iterations.{iterations_of};
ghost use Rattle.handlebars_helpers.specs.View.{iteration_view};
ghost use Rattle.handlebars_layers.specs.Chain.{NodesAreThere, outer_chain};
ghost use Rattle.handlebars_layers.specs.Destination.{route_names};
ghost use Rattle.handlebars_layers.specs.LayerView.{chain_of, names_seen};
ghost use Rattle.handlebars_layers.specs.Layering.{iteration_kind_by_names};
ghost use Rattle.handlebars_semantics.specs.Execute.{in_scope_frame, render_body, render_branch, render_with, run_iterations, view_with_bodies};
ghost use Rattle.handlebars_semantics.specs.Occurrences.{Occurrence, TreeOccurrence};
ghost use Rattle.handlebars_values.specs.ParamView.{IsOf};
ghost use Rattle.handlebars_elements.specs.Iterating.{IsRouteIfAny, IsRouteTo, KnowsIteration, RefinesInFrames, RefinesInLayer, iteration_chain, iteration_in};
ghost use Rattle.handlebars_elements.specs.Judgement.{Refines, Stays};
ghost use Rattle.handlebars_elements.specs.Left.{body_for_each, body_with, part_view};
ghost use Rattle.handlebars_elements.specs.View.{KnowsAround, KnowsElement};

use crate::tree::render_part;
use handlebars_base::json::value::Json;
use handlebars_expand::registered::Registered;
use handlebars_helpers::iteration::Iteration;
use handlebars_layers::binding::block_names;
use handlebars_layers::destination::Route;
use handlebars_layers::iterations::iterations_of;
use handlebars_layers::layer::{BlockNames, Layer, LayerKind};
use handlebars_scope::block::BlockContext;
use handlebars_template::template::{HelperTemplate, Template};
use handlebars_values::environment::Environment;
use handlebars_values::param_value::ParamValue;
use handlebars_values::run::Run;
use handlebars_write::location::IterationsAround;
use handlebars_write::outcome::Outcome;
use handlebars_write::output_mode::OutputMode;
use handlebars_write::sink::Sink;
use std::alloc::AllocError;

/// Renders the body of a call of `with` in its scope frame at this value.
#[inline(never)]
#[cycle(render)]
pub fn render_with<'v, O, T: OutputMode<O>, P: Registered>(
    helper: &'v HelperTemplate,
    environment: &'v Environment<'v, 'v, P>,
    fuel: u64,
    value: ParamValue<'v>,
    run: &mut Run,
    sink: &mut Sink<'_, O, T>,
) -> Outcome
    requires given { IsOf (data_of environment.now.innermost.given.now) value }
    ensures renders { (occurrence : Occurrence) → KnowsElement T.mode.asks environment.now occurrence → (block : Bool) (v : CallView)
        → Refines P.parts T.mode environment.now run sink result
        (body_with occurrence (view_with_bodies block (call_view helper.now) v) value.entry) }
    ensures stays { Stays run sink }
{
    match value {
        ParamValue::Node(reached) => {
            let route = reached.route();
            render_at_node(
                &*helper,
                &*environment,
                fuel,
                reached.value,
                &route,
                run,
                sink,
            )
        }
        ParamValue::Held(value) => render_at_value(helper, environment, fuel, value, run, sink),
        ParamValue::Literal(value) => render_at_value(helper, environment, fuel, value, run, sink),
        ParamValue::Computed(value) => {
            render_at_value(&*helper, &*environment, fuel, &value, run, sink)
        }
        ParamValue::Missing => {
            let null = environment.inclusion.null.value();
            render_at_value(helper, environment, fuel, null, run, sink)
        }
    }
}

// Renders the body of a call of `with` at a value of the data, to which this route leads.
#[cycle(render)]
fn render_at_node<'v, O, T: OutputMode<O>, P: Registered>(
    helper: &'v HelperTemplate,
    environment: &'v Environment<'v, 'v, P>,
    fuel: u64,
    node: &'v Json,
    route: &'v Route<'v, 'v>,
    run: &mut Run,
    sink: &mut Sink<'_, O, T>,
) -> Outcome
    requires route { IsRouteTo (data_of environment.now.innermost.given.now) node route }
    ensures renders { (occurrence : Occurrence) → KnowsElement T.mode.asks environment.now occurrence → (block : Bool) (v : CallView)
        → Refines P.parts T.mode environment.now run sink result (render_with occurrence
        (view_with_bodies block (call_view helper.now) v) (at_path (route_names route.now))) }
    ensures stays { Stays run sink }
{
    let names = block_names(helper.block_param.as_ref());
    let kind = LayerKind::With { names: &names };
    let layer = Layer::at_node(&*node, &*route, kind, environment.innermost.nearest);
    run.partials.enter(environment.innermost);
    render_in(
        helper.template.as_ref(),
        &*environment,
        fuel,
        &layer,
        run,
        sink,
    )
}

// Renders the body of a call of `with` at a value that has no path.
#[cycle(render)]
fn render_at_value<'v, O, T: OutputMode<O>, P: Registered>(
    helper: &'v HelperTemplate,
    environment: &'v Environment<'v, 'v, P>,
    fuel: u64,
    value: &'v Json,
    run: &mut Run,
    sink: &mut Sink<'_, O, T>,
) -> Outcome
    ensures renders { (occurrence : Occurrence) → KnowsElement T.mode.asks environment.now occurrence → (block : Bool) (v : CallView)
        → Refines P.parts T.mode environment.now run sink result (render_with occurrence
        (view_with_bodies block (call_view helper.now) v) (at_value (view value.now))) }
    ensures stays { Stays run sink }
{
    let names = block_names(helper.block_param.as_ref());
    let kind = LayerKind::With { names: &names };
    let layer = Layer::at_value(&*value, kind, environment.innermost.nearest);
    run.partials.enter(environment.innermost);
    render_in(
        helper.template.as_ref(),
        &*environment,
        fuel,
        &layer,
        run,
        sink,
    )
}

// Renders a body in a layer that the run has entered, and leaves it.
#[cycle(render)]
#[inline(always)]
fn render_in<'v, O, T: OutputMode<O>, P: Registered>(
    body: Option<&'v Template>,
    environment: &'v Environment<'v, 'v, P>,
    fuel: u64,
    layer: &'v Layer<'v, 'v>,
    run: &mut Run,
    sink: &mut Sink<'_, O, T>,
) -> Outcome
    requires outer { outer_chain (chain_of layer.now) ≡ Some (chain_of environment.now.innermost.nearest.now) }
    requires lead { NodesAreThere (data_of environment.now.innermost.given.now) (chain_of layer.now) }
    ensures renders { (at : TreeOccurrence) → KnowsAround T.mode.asks environment.now at → RefinesInLayer P.parts T.mode environment.now (chain_of layer.now) run sink result
        (render_branch at (part_view body.entry)) }
    ensures stays { Stays run sink }
{
    let Some(innermost) = environment.innermost.enter(layer) else {
        return Outcome::OutOfMemory;
    };
    let nearer = Environment {
        innermost,
        ..*environment
    };
    render_part(body, &nearer, fuel, run, sink)
}

/// Renders the body in a scope frame that a user-defined helper made.
#[inline(never)]
#[cycle(render)]
pub fn render_in_frame<'v, O, T: OutputMode<O>, P: Registered>(
    helper: &'v HelperTemplate,
    environment: &'v Environment<'v, 'v, P>,
    fuel: u64,
    frame: BlockContext,
    run: &mut Run,
    sink: &mut Sink<'_, O, T>,
) -> Outcome
    ensures renders { (occurrence : Occurrence) → KnowsElement T.mode.asks environment.now occurrence → (i : ℕ) (block : Bool) (v : CallView)
        → Refines P.parts T.mode environment.now run sink result
        (in_scope_frame (frame_of frame) (render_body occurrence i (view_with_bodies block (call_view helper.now) v))) }
    ensures stays { Stays run sink }
{
    let mut frame = frame;
    let partials = frame.take_local_partials();
    match run.partials.enter_frame(environment.innermost, partials) {
        Ok(()) => {}
        Err(AllocError) => return Outcome::OutOfMemory,
    }
    let layer = Layer::of_frame(&frame, environment.innermost.nearest);
    render_in(
        helper.template.as_ref(),
        &*environment,
        fuel,
        &layer,
        run,
        sink,
    )
}

/// Renders the body of a call of `each` for each member of this value.
#[inline(never)]
#[cycle(render)]
pub fn render_each<'v, O, T: OutputMode<O>, P: Registered>(
    helper: &'v HelperTemplate,
    environment: &'v Environment<'v, 'v, P>,
    fuel: u64,
    value: ParamValue<'v>,
    run: &mut Run,
    sink: &mut Sink<'_, O, T>,
) -> Outcome
    requires given { IsOf (data_of environment.now.innermost.given.now) value }
    ensures renders { (occurrence : Occurrence) → KnowsElement T.mode.asks environment.now occurrence → (block : Bool) (v : CallView)
        → Refines P.parts T.mode environment.now run sink result
        (body_for_each occurrence (view_with_bodies block (call_view helper.now) v) value.entry) }
    ensures stays { Stays run sink }
{
    match value {
        ParamValue::Node(reached) => {
            let route = reached.route();
            run_iterations(
                &*helper,
                &*environment,
                fuel,
                reached.value,
                Some(&route),
                run,
                sink,
            )
        }
        ParamValue::Held(value) => run_iterations(
            helper,
            environment,
            fuel,
            value,
            None,
            run,
            sink,
        ),
        ParamValue::Literal(value) => {
            run_iterations(helper, environment, fuel, value, None, run, sink)
        }
        ParamValue::Computed(value) => {
            run_iterations(&*helper, &*environment, fuel, &value, None, run, sink)
        }
        ParamValue::Missing => Outcome::Done,
    }
}

// Renders the body for each member of a value, to which this route leads, if it has one.
#[cycle(render)]
fn run_iterations<'v, O, T: OutputMode<O>, P: Registered>(
    helper: &'v HelperTemplate,
    environment: &'v Environment<'v, 'v, P>,
    fuel: u64,
    value: &'v Json,
    route: Option<&'v Route<'v, 'v>>,
    run: &mut Run,
    sink: &mut Sink<'_, O, T>,
) -> Outcome
    requires route { IsRouteIfAny (data_of environment.now.innermost.given.now) value route }
    ensures renders { (occurrence : Occurrence) → KnowsElement T.mode.asks environment.now occurrence → (block : Bool) (v : CallView)
        → Refines P.parts T.mode environment.now run sink result
        (in_scope_frame empty_frame (run_iterations occurrence 0 (view_with_bodies block (call_view helper.now) v) (option_map (λ r. route_names r.now) route.entry) (iterations_of (view value.now)))) }
    ensures stays { Stays run sink }
{
    let names = block_names(helper.block_param.as_ref());
    run.partials.enter(environment.innermost);
    let mut left = iterations_of(value);
    'iterations: while let Some(iteration) = left.next() {
        let body = helper.template.as_ref();
        match render_iteration(body, environment, fuel, iteration, route, &names, run, sink) {
            Outcome::Done => {}
            Outcome::OutOfMemory => return Outcome::OutOfMemory,
            Outcome::Error(e) => return Outcome::Error(e),
        }
    }
    Outcome::Done
}

// Renders a body in the layer of an iteration, which the run has entered.
#[inline(always)]
#[cycle(render)]
fn render_iteration<'v, 'n, O, T: OutputMode<O>, P: Registered>(
    body: Option<&'v Template>,
    environment: &'v Environment<'v, 'v, P>,
    fuel: u64,
    iteration: Iteration<'v>,
    route: Option<&'v Route<'v, 'v>>,
    names: &'n BlockNames<'v>,
    run: &mut Run,
    sink: &mut Sink<'_, O, T>,
) -> Outcome
    requires lead { NodesAreThere (data_of environment.now.innermost.given.now)
        (iteration_in environment.now route names.now iteration) }
    ensures renders { (at : TreeOccurrence) → KnowsIteration T.mode.asks environment.now iteration.entry.index at
        → RefinesInFrames P.parts T.mode environment.now (iteration_in environment.now route.entry names.now iteration.entry) run sink result
        (render_branch at (part_view body.entry)) }
    ensures stays { Stays run sink }
{
    let layer = iteration_layer(&*environment, iteration, route, &*names);
    let Some(innermost) = environment.innermost.enter(&layer) else {
        return Outcome::OutOfMemory;
    };
    let iterations = IterationsAround::Within {
        index: iteration.index,
        outer: environment.iterations,
    };
    let nearer = Environment {
        innermost,
        iterations: &iterations,
        ..*environment
    };
    render_part(body, &nearer, fuel, run, sink)
}

// The layer of an iteration over what this route leads to, if there is one.
#[inline(always)]
fn iteration_layer<'v, P: Registered>(
    environment: &'v Environment<'v, 'v, P>,
    iteration: Iteration<'v>,
    route: Option<&'v Route<'v, 'v>>,
    names: &'v BlockNames<'v>,
) -> Layer<'v, 'v>
    ensures chain { chain_of result ≡ iteration_chain (view iteration.entry.member.now) route.entry
        (iteration_kind_by_names (names_seen names.now) (iteration_view iteration.entry)) (chain_of environment.now.innermost.nearest.now) }
{
    let kind = LayerKind::iteration(iteration, names);
    let outer = environment.innermost.nearest;
    match route {
        Some(route) => Layer::at_node(iteration.member, route, kind, outer),
        None => Layer::at_value(iteration.member, kind, outer),
    }
}
