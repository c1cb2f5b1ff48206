//! Renderings outside of every inclusion, over the frames from outside. Each function owns what the next one borrows: the null,
//! the layers, the inclusion, and the environment.

ghost use Rattle.std.specs.Prelude.{◌≡◌, List, true};
ghost use Rattle.serde_json.specs.Data.{Data};
ghost use Rattle.handlebars_template.specs.TreeView.{element_view, tree_view};
ghost use Rattle.handlebars_helpers.specs.DecoratorsView.{tag_view};
ghost use Rattle.handlebars_scope.specs.Contexts.{data_of};
ghost use Rattle.handlebars_scope.specs.declared.block.BlockContext.{BlockContext};
ghost use Rattle.handlebars_semantics.specs.Including.{include};
ghost use Rattle.handlebars_semantics.specs.Means.{render_element};
ghost use Rattle.handlebars_semantics.specs.Occurrences.{Occurrence, TreeOccurrence};
ghost use Rattle.handlebars_semantics.specs.Steps.{Whole, perform};
ghost use Rattle.handlebars_context.specs.View.{state_over};
ghost use Rattle.handlebars_write.specs.ModeView.{text_mode};
ghost use Rattle.handlebars_write.specs.OutcomeView.{outcome_answer};
ghost use Rattle.handlebars_write.specs.View.{RefinesProg, held_in, moment_at};
ghost use Rattle.handlebars_values.specs.View.{called_view};
ghost use Rattle.handlebars_elements.specs.Judgement.{Stays};
ghost use Rattle.handlebars_entry.specs.Entry.{HasSameData, IsFirst, IsNoInclusion, IsOutside, over};

use crate::outside::environment_outside;
use crate::viewed::call_of;
use handlebars_base::output::Output;
use handlebars_elements::element::render_element;
use handlebars_elements::include::{IncludingTag, include};
use handlebars_elements::tree::render_tree;
use handlebars_expand::pieces::TemplateReference;
use handlebars_expand::registered::Registered;
use handlebars_helpers::decorators::view::Decorator;
use handlebars_layers::innermost::{Innermost, binds_any};
use handlebars_layers::layer::Layer;
use handlebars_scope::block::BlockContext;
use handlebars_scope::context::Context;
use handlebars_template::template::{Template, TemplateElement};
use handlebars_values::called::Called;
use handlebars_values::environment::Inclusion;
use handlebars_values::null::Null;
use handlebars_values::run::Run;
use handlebars_write::location::{ElementLocation, IterationsAround, Placement, Surroundings};
use handlebars_write::outcome::Outcome;
use handlebars_write::output_mode::OutputMode;
use handlebars_write::sink::Sink;
use handlebars_write::text_only::TextOnly;
use std::alloc::Global;
use std::collections::VecDeque;

/// Renders a tree.
pub(crate) fn render_outermost<'v, O, T: OutputMode<O>, P: Registered>(
    template: &'v Template,
    alloc: Global,
    parts: &'v P,
    given: &'v Context,
    blocks: &'v VecDeque<BlockContext>,
    run: &mut Run,
    sink: &mut Sink<'_, O, T>,
) -> Outcome
    ensures renders { (at : TreeOccurrence) → (T.mode.asks ≡ true → IsFirst at) → RefinesProg (over (P.parts parts.now) (data_of given.now))
        (perform (Whole at (tree_view template.now))) T.mode.may_give
        (moment_at (state_over blocks.now.items run.old) (held_in T.mode sink.old))
        (outcome_answer result) (moment_at (state_over blocks.now.items run.new) (held_in T.mode sink.new)) }
    ensures stays { Stays run sink }
{
    let null = Null::new();
    render_over(
        &*template, alloc, &*parts, &*given, &*blocks, &null, run, sink,
    )
}

// Renders a tree, with a null that is borrowed. Owns the layers outside of every inclusion.
fn render_over<'v, O, T: OutputMode<O>, P: Registered>(
    template: &'v Template,
    alloc: Global,
    parts: &'v P,
    given: &'v Context,
    blocks: &'v VecDeque<BlockContext>,
    null: &'v Null,
    run: &mut Run,
    sink: &mut Sink<'_, O, T>,
) -> Outcome
    ensures renders { (at : TreeOccurrence) → (T.mode.asks ≡ true → IsFirst at) → RefinesProg (over (P.parts parts.now) (data_of given.now))
        (perform (Whole at (tree_view template.now))) T.mode.may_give
        (moment_at (state_over blocks.now.items run.old) (held_in T.mode sink.old))
        (outcome_answer result) (moment_at (state_over blocks.now.items run.new) (held_in T.mode sink.new)) }
    ensures stays { Stays run sink }
{
    let root = Layer::root();
    let iterations = IterationsAround::None;
    let frames = Layer::outside(&*blocks);
    let innermost = Innermost::outside(&*given, &frames, &root, binds_any(&*blocks));
    render_from(
        &*template,
        alloc,
        &*parts,
        &*null,
        innermost,
        &iterations,
        run,
        sink,
    )
}

// Renders a tree from these layers. Owns the inclusion.
fn render_from<'v, O, T: OutputMode<O>, P: Registered>(
    template: &'v Template,
    alloc: Global,
    parts: &'v P,
    null: &'v Null,
    innermost: Innermost<'v, 'v>,
    iterations: &'v IterationsAround<'v>,
    run: &mut Run,
    sink: &mut Sink<'_, O, T>,
) -> Outcome
    ensures renders { (blocks : List BlockContext) (d : Data) → IsOutside blocks d innermost.entry iterations.now → (at : TreeOccurrence) → (T.mode.asks ≡ true → IsFirst at) → RefinesProg (over (P.parts parts.now) d)
        (perform (Whole at (tree_view template.now))) T.mode.may_give
        (moment_at (state_over blocks run.old) (held_in T.mode sink.old))
        (outcome_answer result) (moment_at (state_over blocks run.new) (held_in T.mode sink.new)) }
    ensures stays { Stays run sink }
{
    let inclusion = Inclusion {
        alloc,
        parts: &*parts,
        null: &*null,
        inclusions: 0,
        captured: None,
        placement: Placement {
            alloc,
            indent: None,
            template: TemplateReference::First,
        },
    };
    render_with(&*template, &inclusion, innermost, iterations, run, sink)
}

// Renders a tree, with what is borrowed.
fn render_with<'v, O, T: OutputMode<O>, P: Registered>(
    template: &'v Template,
    inclusion: &'v Inclusion<'v, P>,
    innermost: Innermost<'v, 'v>,
    iterations: &'v IterationsAround<'v>,
    run: &mut Run,
    sink: &mut Sink<'_, O, T>,
) -> Outcome
    ensures renders { (blocks : List BlockContext) (registered : P) (d : Data) → IsOutside blocks d innermost.entry iterations.now → IsNoInclusion registered inclusion.now
        → (at : TreeOccurrence) → (T.mode.asks ≡ true → IsFirst at) → RefinesProg (over (P.parts registered) d)
        (perform (Whole at (tree_view template.now))) T.mode.may_give
        (moment_at (state_over blocks run.old) (held_in T.mode sink.old))
        (outcome_answer result) (moment_at (state_over blocks run.new) (held_in T.mode sink.new)) }
    ensures stays { Stays run sink }
{
    let environment = environment_outside(&*inclusion, innermost, iterations);
    render_tree(&*template, &environment, u64::MAX, run, sink)
}

/// Renders an element alone.
pub(crate) fn render_outermost_element<'v, O: Output, P: Registered>(
    element: &'v TemplateElement,
    alloc: Global,
    parts: &'v P,
    given: &'v Context,
    blocks: &'v VecDeque<BlockContext>,
    run: &mut Run,
    sink: &mut Sink<'_, O, TextOnly>,
) -> Outcome
    ensures renders { (occurrence : Occurrence) → RefinesProg (over (P.parts parts.now) (data_of given.now))
        (render_element occurrence (element_view element.now)) (text_mode O.held O.may_give).may_give
        (moment_at (state_over blocks.now.items run.old) (held_in (text_mode O.held O.may_give) sink.old))
        (outcome_answer result) (moment_at (state_over blocks.now.items run.new) (held_in (text_mode O.held O.may_give) sink.new)) }
    ensures stays { Stays run sink }
{
    let null = Null::new();
    render_element_over(
        &*element, alloc, &*parts, &*given, &*blocks, &null, run, sink,
    )
}

// Renders an element alone, with a null that is borrowed. Owns the layers outside of every inclusion.
fn render_element_over<'v, O: Output, P: Registered>(
    element: &'v TemplateElement,
    alloc: Global,
    parts: &'v P,
    given: &'v Context,
    blocks: &'v VecDeque<BlockContext>,
    null: &'v Null,
    run: &mut Run,
    sink: &mut Sink<'_, O, TextOnly>,
) -> Outcome
    ensures renders { (occurrence : Occurrence) → RefinesProg (over (P.parts parts.now) (data_of given.now))
        (render_element occurrence (element_view element.now)) (text_mode O.held O.may_give).may_give
        (moment_at (state_over blocks.now.items run.old) (held_in (text_mode O.held O.may_give) sink.old))
        (outcome_answer result) (moment_at (state_over blocks.now.items run.new) (held_in (text_mode O.held O.may_give) sink.new)) }
    ensures stays { Stays run sink }
{
    let root = Layer::root();
    let iterations = IterationsAround::None;
    let frames = Layer::outside(&*blocks);
    let innermost = Innermost::outside(&*given, &frames, &root, binds_any(&*blocks));
    render_element_from(
        &*element,
        alloc,
        &*parts,
        &*null,
        innermost,
        &iterations,
        run,
        sink,
    )
}

// Renders an element alone, from these layers. Owns the inclusion.
fn render_element_from<'v, O: Output, P: Registered>(
    element: &'v TemplateElement,
    alloc: Global,
    parts: &'v P,
    null: &'v Null,
    innermost: Innermost<'v, 'v>,
    iterations: &'v IterationsAround<'v>,
    run: &mut Run,
    sink: &mut Sink<'_, O, TextOnly>,
) -> Outcome
    ensures renders { (blocks : List BlockContext) (d : Data) → IsOutside blocks d innermost.entry iterations.now → (occurrence : Occurrence) → RefinesProg (over (P.parts parts.now) d)
        (render_element occurrence (element_view element.now)) (text_mode O.held O.may_give).may_give
        (moment_at (state_over blocks run.old) (held_in (text_mode O.held O.may_give) sink.old))
        (outcome_answer result) (moment_at (state_over blocks run.new) (held_in (text_mode O.held O.may_give) sink.new)) }
    ensures stays { Stays run sink }
{
    let inclusion = Inclusion {
        alloc,
        parts: &*parts,
        null: &*null,
        inclusions: 0,
        captured: None,
        placement: Placement {
            alloc,
            indent: None,
            template: TemplateReference::First,
        },
    };
    render_element_with(&*element, &inclusion, innermost, iterations, run, sink)
}

// Renders an element alone, with what is borrowed.
fn render_element_with<'v, O: Output, P: Registered>(
    element: &'v TemplateElement,
    inclusion: &'v Inclusion<'v, P>,
    innermost: Innermost<'v, 'v>,
    iterations: &'v IterationsAround<'v>,
    run: &mut Run,
    sink: &mut Sink<'_, O, TextOnly>,
) -> Outcome
    ensures renders { (blocks : List BlockContext) (registered : P) (d : Data) → IsOutside blocks d innermost.entry iterations.now → IsNoInclusion registered inclusion.now
        → (occurrence : Occurrence) → RefinesProg (over (P.parts registered) d)
        (render_element occurrence (element_view element.now)) (text_mode O.held O.may_give).may_give
        (moment_at (state_over blocks run.old) (held_in (text_mode O.held O.may_give) sink.old))
        (outcome_answer result) (moment_at (state_over blocks run.new) (held_in (text_mode O.held O.may_give) sink.new)) }
    ensures stays { Stays run sink }
{
    let environment = environment_outside(&*inclusion, innermost, iterations);
    let mapping = Vec::new(inclusion.alloc);
    let surroundings = Surroundings {
        placement: &inclusion.placement,
        iterations,
        mapping: &mapping,
    };
    let at = ElementLocation {
        surroundings: &surroundings,
        index: 0,
    };
    render_element(&*element, &environment, u64::MAX, at, run, sink)
}

/// Includes what is found by the name of a tag of this view.
pub(crate) fn include_outermost<'v, 'd: 'v, O: Output, P: Registered>(
    view: &'v Decorator<'d>,
    alloc: Global,
    parts: &'v P,
    given: &'v Context,
    blocks: &'v VecDeque<BlockContext>,
    run: &mut Run,
    sink: &mut Sink<'_, O, TextOnly>,
) -> Outcome
    ensures renders { (occurrence : Occurrence) → RefinesProg (over (P.parts parts.now) (data_of given.now))
        (include occurrence (tag_view view.now)) (text_mode O.held O.may_give).may_give
        (moment_at (state_over blocks.now.items run.old) (held_in (text_mode O.held O.may_give) sink.old))
        (outcome_answer result) (moment_at (state_over blocks.now.items run.new) (held_in (text_mode O.held O.may_give) sink.new)) }
    ensures stays { Stays run sink }
{
    let Ok(call) = call_of(alloc, &*view) else {
        return Outcome::OutOfMemory;
    };
    let null = Null::new();
    include_over(
        &*view, &call, alloc, &*parts, &*given, &*blocks, &null, run, sink,
    )
}

// Includes what is found by the name of a tag of this view, with a null that is borrowed. Owns the layers outside of every
// inclusion.
fn include_over<'v, 'd: 'v, 'c, O: Output, P: Registered>(
    view: &'v Decorator<'d>,
    call: &'v Called<'c>,
    alloc: Global,
    parts: &'v P,
    given: &'v Context,
    blocks: &'v VecDeque<BlockContext>,
    null: &'v Null,
    run: &mut Run,
    sink: &mut Sink<'_, O, TextOnly>,
) -> Outcome
    ensures renders { HasSameData (called_view call.now) (tag_view view.now).call → (occurrence : Occurrence) → RefinesProg (over (P.parts parts.now) (data_of given.now))
        (include occurrence (tag_view view.now)) (text_mode O.held O.may_give).may_give
        (moment_at (state_over blocks.now.items run.old) (held_in (text_mode O.held O.may_give) sink.old))
        (outcome_answer result) (moment_at (state_over blocks.now.items run.new) (held_in (text_mode O.held O.may_give) sink.new)) }
    ensures stays { Stays run sink }
{
    let root = Layer::root();
    let iterations = IterationsAround::None;
    let frames = Layer::outside(&*blocks);
    let innermost = Innermost::outside(&*given, &frames, &root, binds_any(&*blocks));
    include_from(
        &*view,
        call,
        alloc,
        &*parts,
        &*null,
        innermost,
        &iterations,
        run,
        sink,
    )
}

// Includes what is found by the name of a tag of this view, from these layers. Owns the inclusion.
fn include_from<'v, 'd: 'v, 'c, O: Output, P: Registered>(
    view: &'v Decorator<'d>,
    call: &'v Called<'c>,
    alloc: Global,
    parts: &'v P,
    null: &'v Null,
    innermost: Innermost<'v, 'v>,
    iterations: &'v IterationsAround<'v>,
    run: &mut Run,
    sink: &mut Sink<'_, O, TextOnly>,
) -> Outcome
    ensures renders { (blocks : List BlockContext) (d : Data) → IsOutside blocks d innermost.entry iterations.now → HasSameData (called_view call.now) (tag_view view.now).call → (occurrence : Occurrence) → RefinesProg (over (P.parts parts.now) d)
        (include occurrence (tag_view view.now)) (text_mode O.held O.may_give).may_give
        (moment_at (state_over blocks run.old) (held_in (text_mode O.held O.may_give) sink.old))
        (outcome_answer result) (moment_at (state_over blocks run.new) (held_in (text_mode O.held O.may_give) sink.new)) }
    ensures stays { Stays run sink }
{
    let inclusion = Inclusion {
        alloc,
        parts: &*parts,
        null: &*null,
        inclusions: 0,
        captured: None,
        placement: Placement {
            alloc,
            indent: None,
            template: TemplateReference::First,
        },
    };
    include_with(&*view, call, &inclusion, innermost, iterations, run, sink)
}

// Includes what is found by the name of a tag of this view, with what is borrowed.
fn include_with<'v, 'd: 'v, 'c, O: Output, P: Registered>(
    view: &'v Decorator<'d>,
    call: &'v Called<'c>,
    inclusion: &'v Inclusion<'v, P>,
    innermost: Innermost<'v, 'v>,
    iterations: &'v IterationsAround<'v>,
    run: &mut Run,
    sink: &mut Sink<'_, O, TextOnly>,
) -> Outcome
    ensures renders { (blocks : List BlockContext) (registered : P) (d : Data) → HasSameData (called_view call.now) (tag_view view.now).call → IsOutside blocks d innermost.entry iterations.now → IsNoInclusion registered inclusion.now
        → (occurrence : Occurrence) → RefinesProg (over (P.parts registered) d)
        (include occurrence (tag_view view.now)) (text_mode O.held O.may_give).may_give
        (moment_at (state_over blocks run.old) (held_in (text_mode O.held O.may_give) sink.old))
        (outcome_answer result) (moment_at (state_over blocks run.new) (held_in (text_mode O.held O.may_give) sink.new)) }
    ensures stays { Stays run sink }
{
    let environment = environment_outside(&*inclusion, innermost, iterations);
    let tag = IncludingTag {
        call,
        body: view.template(),
        indent: view.indent(),
    };
    include(tag, &environment, u64::MAX, run, sink)
}
