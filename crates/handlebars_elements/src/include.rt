//! Rendering inclusions.

ghost use Rattle.std.specs.Prelude.{◌≡◌, ◌<◌, ◌≤◌, ◌+◌, IfErr, IfOk, option_map, string_bytes};
ghost use Rattle.std.specs.Cow.{cow_str_bytes};
ghost use Rattle.std.specs.Str.{bytes_eq};
ghost use Rattle.handlebars_base.specs.Answers.{IsRefusal};
ghost use Rattle.handlebars_base.specs.Reasons.{inclusion_limit};
ghost use Rattle.handlebars_base.specs.RenderRefusals.{plain_refusal};
ghost use Rattle.handlebars_template.specs.Tree.{tree_name};
ghost use Rattle.handlebars_template.specs.TreeView.{decorator_view, tree_view};
ghost use Rattle.serde_json.specs.View.{view};
ghost use Rattle.handlebars_layers.specs.FrameValues.{hash_values};
ghost use Rattle.handlebars_layers.specs.LayerView.{chain_of};
ghost use Rattle.handlebars_semantics.specs.Inclusion.{is_current, newest, registered_or_own};
ghost use Rattle.handlebars_semantics.specs.Including.{include, include_found, include_partial, include_tree, partial_block_name, render_ahead, write_captured};
ghost use Rattle.handlebars_semantics.specs.Means.{render_partial};
ghost use Rattle.handlebars_semantics.specs.Occurrences.{Occurrence, TreeOccurrence, the_included};
ghost use Rattle.handlebars_semantics.specs.State.{partial_in};
ghost use Rattle.handlebars_semantics.specs.Steps.{Whole, capture, perform};
ghost use Rattle.handlebars_expand.specs.Boxed.{answer_of, error_of};
ghost use Rattle.handlebars_expand.specs.PiecesView.{template_seen};
ghost use Rattle.handlebars_values.specs.View.{CapturedIn, frames_in_run, setting_in, state_with, within};
ghost use Rattle.handlebars_write.specs.OutcomeView.{outcome_answer};
ghost use Rattle.handlebars_write.specs.View.{Holding, RefinesAhead, RefinesProg, held_in};
ghost use Rattle.handlebars_elements.specs.Judgement.{Refines, RefinesWith, Stays};
ghost use Rattle.handlebars_elements.specs.Left.{part_view};
ghost use Rattle.handlebars_elements.specs.Tags.{IncludesAt, including_view};
ghost use Rattle.handlebars_elements.specs.View.{Captures, IsUnchanged, KnowsAround, KnowsAroundAs, KnowsElement, included, moment};

use crate::bracket::{line_at, line_out};
use crate::error::{failed, partial_not_found};
use crate::tree::render_tree;
use handlebars_base::error::RenderErrorReason;
use handlebars_base::json::value::Json;
use handlebars_expand::ahead::{Ahead, Captured};
use handlebars_expand::boxed::BoxedError;
use handlebars_expand::pieces::TemplateReference;
use handlebars_expand::registered::Registered;
use handlebars_layers::destination::FrameValue;
use handlebars_layers::layer::{Layer, LayerKind};
use handlebars_template::template::{DecoratorTemplate, Template};
use handlebars_values::called::{Called, called_tag, joined_indent};
use handlebars_values::environment::{Environment, Inclusion};
use handlebars_values::inclusion::{base, bound_hash};
use handlebars_values::run::Run;
use handlebars_write::location::Placement;
use handlebars_write::outcome::Outcome;
use handlebars_write::output_mode::OutputMode;
use handlebars_write::sink::Sink;
use std::alloc::AllocError;
use std::borrow::CowStr;
use std::rc::Rc;

/// The tag of an inclusion: its name and the values of its parameters and hash arguments, its block, and the indentation for what
/// it includes.
#[derive(Clone, Copy)]
pub struct IncludingTag<'v, 'c> {
    pub call: &'v Called<'c>,
    pub body: Option<&'v Template>,
    pub indent: Option<&'v str>,
}

/// Renders what the tag of an inclusion includes. Its values are computed first. The state of the line after it is as after a
/// call.
#[inline(never)]
#[cycle(render)]
pub fn render_partial<'v, O, T: OutputMode<O>, P: Registered>(
    tag: &'v DecoratorTemplate,
    environment: &'v Environment<'v, 'v, P>,
    fuel: u64,
    run: &mut Run,
    sink: &mut Sink<'_, O, T>,
) -> Outcome
    ensures renders { (occurrence : Occurrence) → KnowsElement T.mode.asks environment.now occurrence → Refines P.parts T.mode environment.now run sink result
        (render_partial occurrence (decorator_view tag.now)) }
    ensures stays { Stays run sink }
{
    let call = match called_tag(environment, run, tag) {
        Ok(call) => call,
        Err(e) => return Outcome::from(e),
    };
    let Ok(indent) = joined_indent(
        environment.inclusion.alloc,
        environment.inclusion.placement.indent,
        tag.indent.as_ref(),
    ) else {
        return Outcome::OutOfMemory;
    };
    let tag_seen = IncludingTag {
        call: &call,
        body: tag.template.as_ref(),
        indent: text_of(&indent),
    };
    let before = run.line;
    run.line = line_at(run.line, tag);
    let outcome = include(tag_seen, &*environment, fuel, run, sink);
    run.line = line_out(before, run.line);
    outcome
}

// Returns the text of an indentation, if there is one.
#[inline(always)]
fn text_of<'v>(indent: &'v Option<CowStr<'_>>) -> Option<&'v str>
    ensures { option_map (λ t. t.now) result ≡ option_map cow_str_bytes indent.now }
{
    match indent {
        Some(indent) => Some(indent.as_str()),
        None => None,
    }
}

/// Includes what is found by the name of a tag.
#[cycle(render)]
pub fn include<'v, 'c, O, T: OutputMode<O>, P: Registered>(
    tag: IncludingTag<'v, 'c>,
    environment: &'v Environment<'v, 'v, P>,
    fuel: u64,
    run: &mut Run,
    sink: &mut Sink<'_, O, T>,
) -> Outcome
    ensures renders { (occurrence : Occurrence) → KnowsElement T.mode.asks environment.now occurrence → Refines P.parts T.mode environment.now run sink result
        (include occurrence (including_view tag.entry)) }
    ensures stays { Stays run sink }
{
    let alloc = environment.inclusion.alloc;
    let name = tag.call.name.as_str();
    if is_current(run, name) {
        return Outcome::from(failed(alloc, RenderErrorReason::CannotIncludeSelf));
    }
    if is_partial_block(name) {
        return render_captured(tag, environment, fuel, run, sink);
    }
    match local_partial(&*environment, name, &*run) {
        Ok(Some(tree)) => include_local(tag, tree, environment, fuel, run, sink),
        Ok(None) => include_other(tag, environment, fuel, run, sink),
        Err(AllocError) => Outcome::OutOfMemory,
    }
}

// Includes a partial that a decorator set.
#[cycle(render)]
fn include_local<'v, 'c, O, T: OutputMode<O>, P: Registered>(
    tag: IncludingTag<'v, 'c>,
    tree: Rc<Template>,
    environment: &'v Environment<'v, 'v, P>,
    fuel: u64,
    run: &mut Run,
    sink: &mut Sink<'_, O, T>,
) -> Outcome
    ensures renders { (occurrence : Occurrence) → KnowsElement T.mode.asks environment.now occurrence → Refines P.parts T.mode environment.now run sink result
        (include_found occurrence (including_view tag.entry) (tree_name (tree_view tree.value)) (tree_view tree.value)) }
    ensures stays { Stays run sink }
{
    let template = included(&*tree);
    include_tree(
        tag,
        &*tree,
        template,
        tag.body,
        &*environment,
        fuel,
        run,
        sink,
    )
}

// Includes the registered template of the tag's name, or else the tag's block.
#[cycle(render)]
fn include_other<'v, 'c, O, T: OutputMode<O>, P: Registered>(
    tag: IncludingTag<'v, 'c>,
    environment: &'v Environment<'v, 'v, P>,
    fuel: u64,
    run: &mut Run,
    sink: &mut Sink<'_, O, T>,
) -> Outcome
    ensures renders { (occurrence : Occurrence) → KnowsElement T.mode.asks environment.now occurrence → Refines P.parts T.mode environment.now run sink result
        (include_partial occurrence (including_view tag.entry) (registered_or_own
        ((P.parts environment.now.inclusion.now.parts.now).template (including_view tag.entry).call.name) (including_view tag.entry).body)) }
    ensures stays { Stays run sink }
{
    let name = tag.call.name.as_str();
    match environment.inclusion.parts.template(name) {
        Some(tree) => {
            let template = TemplateReference::Included(Some(name));
            include_tree(tag, tree, template, tag.body, environment, fuel, run, sink)
        }
        None => match tag.body {
            Some(body) => {
                let template = environment.inclusion.placement.template;
                include_tree(tag, body, template, None, environment, fuel, run, sink)
            }
            None => Outcome::from(partial_not_found(environment.inclusion.alloc, name)),
        },
    }
}

// Returns whether a name is that of the template whose elements are being rendered.
fn is_current(run: &Run, name: &str) -> bool
    ensures { result ≡ is_current name.now (option_map string_bytes run.now.current_template) }
{
    match &run.current_template {
        Some(current) => current.as_str() == name,
        None => false,
    }
}

// Returns the partial of a name that a decorator set. It is shared with the run, in which another partial may be set under the name
// while this one is rendered.
#[inline(always)]
fn local_partial<'p, P: Registered>(
    environment: &'p Environment<'p, 'p, P>,
    name: &str,
    run: &'p Run,
) -> Result<Option<Rc<Template>>, AllocError>
    ensures { IfOk result (λ shared. option_map (λ t. tree_view t.value) shared
        ≡ partial_in (frames_in_run (chain_of environment.now.innermost.nearest.now) run.now) name.now) }
{
    match run.partials.find(environment.innermost, name) {
        Some(template) => Ok(Some(template.clone()?)),
        None => Ok(None),
    }
}

// Returns the template reference of the elements of a local partial: its own name.
fn included(tree: &Template) -> TemplateReference<'_>
    ensures { template_seen result ≡ the_included (tree_name (tree_view tree.now)) }
{
    match &tree.name {
        Some(name) => TemplateReference::Included(Some(name.as_str())),
        None => TemplateReference::Included(None),
    }
}

// Returns whether a name is that of the captured text.
fn is_partial_block(name: &str) -> bool
    ensures { result ≡ bytes_eq partial_block_name name.now }
{
    "@partial-block" == name
}

// Writes the captured text, or renders the tag's own block.
#[inline(never)]
#[cycle(render)]
fn render_captured<'v, 'c, O, T: OutputMode<O>, P: Registered>(
    tag: IncludingTag<'v, 'c>,
    environment: &'v Environment<'v, 'v, P>,
    fuel: u64,
    run: &mut Run,
    sink: &mut Sink<'_, O, T>,
) -> Outcome
    ensures renders { (occurrence : Occurrence) → KnowsElement T.mode.asks environment.now occurrence → (captured : CapturedIn (within environment.now)) → Captures T.mode.asks captured → RefinesWith P.parts T.mode environment.now run sink (outcome_answer result) captured
        (write_captured occurrence (including_view tag.entry).body (state_with captured run.old) (newest captured.pieces)) }
    ensures stays { Stays run sink }
{
    let alloc = environment.inclusion.alloc;
    if let Some(captured) = environment.inclusion.captured {
        return T::put_captured(alloc, captured, sink);
    }
    let Some(body) = tag.body else {
        return Outcome::from(failed(alloc, RenderErrorReason::PartialBlockNotFound));
    };
    let name = run.take_name();
    let outcome = render_tree(body, environment, fuel, run, sink);
    run.leave(name);
    outcome
}

// Includes a tree in its own scope frame. This body, if there is one, is rendered ahead, and captured for the tree.
#[inline(never)]
#[cycle(render)]
fn include_tree<'v, 'c, O, T: OutputMode<O>, P: Registered>(
    tag: IncludingTag<'v, 'c>,
    tree: &'v Template,
    template: TemplateReference<'v>,
    body: Option<&'v Template>,
    environment: &'v Environment<'v, 'v, P>,
    fuel: u64,
    run: &mut Run,
    sink: &mut Sink<'_, O, T>,
) -> Outcome
    ensures renders { (occurrence : Occurrence) → KnowsElement T.mode.asks environment.now occurrence →
        (at : TreeOccurrence) → KnowsAroundAs T.mode.asks environment.now template.entry at → Refines P.parts T.mode environment.now run sink result
        (include_tree (including_view tag.entry) at (tree_view tree.now) (render_ahead occurrence (part_view body.entry))) }
    ensures stays { Stays run sink }
{
    let count = match one_more(environment) {
        Ok(count) => count,
        Err(e) => return Outcome::from(e),
    };
    let base = match base(tag.call, environment, run) {
        Ok(base) => base,
        Err(e) => return Outcome::from(e),
    };
    let inclusion = environment.inclusion;
    let Ok(hash) = bound_hash(inclusion.alloc, inclusion.null, &tag.call.hash) else {
        return Outcome::OutOfMemory;
    };
    let value = base.value();
    let bound = hash.as_slice();
    include_at(
        tag,
        &*tree,
        template,
        body,
        count,
        value,
        bound,
        &*environment,
        fuel,
        run,
        sink,
    )
}

// Includes a tree in its own scope frame, which is at this value and binds these hash arguments.
#[cycle(render)]
fn include_at<'v, 'c, O, T: OutputMode<O>, P: Registered>(
    tag: IncludingTag<'v, 'c>,
    tree: &'v Template,
    template: TemplateReference<'v>,
    body: Option<&'v Template>,
    count: u16,
    value: &'v Json,
    hash: &'v [(&'v str, FrameValue<'v>)],
    environment: &'v Environment<'v, 'v, P>,
    fuel: u64,
    run: &mut Run,
    sink: &mut Sink<'_, O, T>,
) -> Outcome
    ensures renders { (occurrence : Occurrence) → KnowsElement T.mode.asks environment.now occurrence → (at : TreeOccurrence)
        → KnowsAroundAs T.mode.asks environment.now template.entry at
        → IncludesAt P.parts T.mode environment.now (including_view tag.entry) count (view value.now) (hash_values hash.now) run sink result
        (include_tree (including_view tag.entry) at (tree_view tree.now) (render_ahead occurrence (part_view body.entry))) }
    ensures stays { Stays run sink }
{
    let kind = LayerKind::Partial { hash };
    let layer = Layer::at_value(&*value, kind, environment.innermost.nearest);
    let Some(innermost) = environment.innermost.enter(&layer) else {
        return Outcome::OutOfMemory;
    };
    run.partials.enter(environment.innermost);
    let name = run.take_name();
    let nearer = Environment {
        innermost,
        ..*environment
    };
    let outcome = match body {
        Some(body) => match render_ahead::<O, T, P>(body, &nearer, fuel, run) {
            Ok(captured) => {
                render_under(
                    tag,
                    &*tree,
                    template,
                    count,
                    Some(&captured),
                    &nearer,
                    fuel,
                    run,
                    sink,
                )
            }
            Err(e) => Outcome::from(e),
        },
        None => render_under(tag, &*tree, template, count, None, &nearer, fuel, run, sink),
    };
    run.leave(name);
    outcome
}

// Renders a tree within an inclusion, with this captured text, or none, under the indentation of the tag. The inclusion is one of
// `count` that are being rendered.
#[cycle(render)]
fn render_under<'v, 'c, O, T: OutputMode<O>, P: Registered>(
    tag: IncludingTag<'v, 'c>,
    tree: &'v Template,
    template: TemplateReference<'v>,
    count: u16,
    captured: Option<&'v Captured>,
    environment: &'v Environment<'v, 'v, P>,
    fuel: u64,
    run: &mut Run,
    sink: &mut Sink<'_, O, T>,
) -> Outcome
    ensures renders { (at : TreeOccurrence) → KnowsAroundAs T.mode.asks environment.now template.entry at
        → (captured : CapturedIn (included count captured.entry (including_view tag.entry).indent (within environment.now).layers))
        → Captures T.mode.asks captured → RefinesProg (setting_in P.parts environment.now) (perform (Whole at (tree_view tree.now)))
        T.mode.may_give (moment captured run.old (held_in T.mode sink.old))
        (outcome_answer result) (moment captured run.new (held_in T.mode sink.new)) }
    ensures stays { Stays run sink }
{
    let inclusion = Inclusion {
        inclusions: count,
        captured,
        placement: Placement {
            alloc: environment.inclusion.alloc,
            indent: tag.indent,
            template,
        },
        ..*environment.inclusion
    };
    let nearer = Environment {
        inclusion: &inclusion,
        ..*environment
    };
    render_tree(&*tree, &nearer, fuel, run, sink)
}

// Renders a tag's block ahead, and captures it for the partial blocks of what is included.
#[inline(never)]
#[cycle(render)]
fn render_ahead<'v, O, T: OutputMode<O>, P: Registered>(
    body: &'v Template,
    environment: &'v Environment<'v, 'v, P>,
    fuel: u64,
    run: &mut Run,
) -> Result<Captured, BoxedError>
    ensures ahead { (at : TreeOccurrence) → KnowsAround T.mode.asks environment.now at → (captured : CapturedIn (within environment.now))
        → Captures T.mode.asks captured → (held : Holding) → RefinesAhead T.mode.asks (setting_in P.parts environment.now) (capture (perform (Whole at (tree_view body.now))))
        T.mode.may_give (moment captured run.old held) (answer_of result) (moment captured run.new held) }
    ensures unchanged { IsUnchanged run.old run.new }
{
    let mut ahead = Ahead::new(environment.inclusion.alloc);
    let mut sink: Sink<'_, O, T> = Sink::Ahead(&mut ahead);
    let outcome = render_tree(body, environment, fuel, run, &mut sink);
    match sink {
        Sink::Ahead(_ahead) => match outcome {
            Outcome::Done => Ok(ahead.into_captured()),
            Outcome::OutOfMemory => Err(BoxedError::OutOfMemory),
            Outcome::Error(e) => Err(BoxedError::Error(e)),
        },
        Sink::Out(_out, _) => unreachable!(),
    }
}

// Returns the number of inclusions within one more, if the limit allows it.
fn one_more<P: Registered>(environment: &Environment<P>) -> Result<u16, BoxedError>
    ensures ok { IfOk result (λ n. ((within environment.now).inclusions < (P.parts environment.now.inclusion.now.parts.now).limit)
        × (n ≡ (within environment.now).inclusions + 1)) }
    ensures err { IfErr result (λ e. ((P.parts environment.now.inclusion.now.parts.now).limit ≤ (within environment.now).inclusions)
        × IsRefusal (plain_refusal (inclusion_limit (P.parts environment.now.inclusion.now.parts.now).limit)) (error_of e)) }
{
    let limit = environment.inclusion.parts.limit();
    if environment.inclusion.inclusions < limit {
        Ok(environment.inclusion.inclusions + 1)
    } else {
        Err(failed(
            environment.inclusion.alloc,
            RenderErrorReason::InclusionLimit(limit),
        ))
    }
}
