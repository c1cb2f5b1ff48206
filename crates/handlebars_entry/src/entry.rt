//! The entry points of a rendering, for callers that have an output and a context.

ghost use Rattle.std.specs.Prelude.{◌≡◌, true};
ghost use Rattle.handlebars_template.specs.Tree.{tree_name};
ghost use Rattle.handlebars_template.specs.TreeView.{element_view, tree_view};
ghost use Rattle.handlebars_helpers.specs.DecoratorsView.{tag_view};
ghost use Rattle.handlebars_scope.specs.Contexts.{data_of};
ghost use Rattle.handlebars_semantics.specs.Evaluation.{decorator_alone, eval_tree, renamed};
ghost use Rattle.handlebars_semantics.specs.Including.{include};
ghost use Rattle.handlebars_semantics.specs.Means.{render_element};
ghost use Rattle.handlebars_semantics.specs.Occurrences.{Occurrence, TreeOccurrence};
ghost use Rattle.handlebars_semantics.specs.Steps.{Whole, perform, run};
ghost use Rattle.handlebars_expand.specs.Boxed.{answer_of};
ghost use Rattle.handlebars_context.specs.View.{IsUnchanged, state_of};
ghost use Rattle.handlebars_write.specs.View.{RefinesProg, RefinesSteps, holding_of_pieces, moment_at, text_only};
ghost use Rattle.handlebars_entry.specs.Entry.{IsFirst, over};
ghost use Rattle.handlebars_elements.specs.Silent.{Does, Evals};

use crate::evaluating::{eval_outermost, eval_outermost_element};
use crate::outermost::{include_outermost, render_outermost, render_outermost_element};
use handlebars_base::output::Output;
use handlebars_context::context::RenderContext;
use handlebars_context::context::internal::{all_looked_up, count_as_evaluation, restore, take};
use handlebars_expand::boxed::BoxedError;
use handlebars_expand::pieces::PieceOutput;
use handlebars_expand::registered::Registered;
use handlebars_helpers::decorators::view::Decorator;
use handlebars_scope::context::Context;
use handlebars_template::template::{Template, TemplateElement};
use handlebars_write::each_piece::EachPiece;
use handlebars_write::sink::Sink;
use handlebars_write::text_only::TextOnly;
use std::alloc::Global;
use std::marker::PhantomData;

/// Renders a tree into an output. The trees that may be nested are 2^64 - 1.
pub fn render_into<O: Output, P: Registered>(
    template: &Template,
    alloc: Global,
    parts: &P,
    given: &Context,
    rc: &mut RenderContext,
    out: &mut O,
) -> Result<(), BoxedError>
    ensures renders { (at : TreeOccurrence) → RefinesProg (over (P.parts parts.now) (data_of given.now))
        (perform (Whole at (tree_view template.now))) O.may_give (moment_at (state_of rc.old) (text_only (O.held out.old)))
        (answer_of result) (moment_at (state_of rc.new) (text_only (O.held out.new))) }
    ensures unchanged { IsUnchanged rc.old rc.new }
{
    let (blocks, mut run) = take(rc);
    let mut sink: Sink<'_, O, TextOnly> = Sink::Out(out, PhantomData);
    let outcome = render_outermost(
        &*template, alloc, &*parts, &*given, &blocks, &mut run, &mut sink,
    );
    restore(rc, blocks, run);
    match sink {
        Sink::Out(_out, _) => outcome.into_result(),
        Sink::Ahead(_ahead) => outcome.into_result(),
    }
}

/// Renders a tree into an output that receives each piece, as `render_into` does.
pub fn render_pieces_into<O: PieceOutput, P: Registered>(
    template: &Template,
    alloc: Global,
    parts: &P,
    given: &Context,
    rc: &mut RenderContext,
    out: &mut O,
) -> Result<(), BoxedError>
    ensures renders { (at : TreeOccurrence) → IsFirst at → RefinesProg (over (P.parts parts.now) (data_of given.now))
        (perform (Whole at (tree_view template.now))) O.may_give (moment_at (state_of rc.old) (holding_of_pieces (O.received out.old)))
        (answer_of result) (moment_at (state_of rc.new) (holding_of_pieces (O.received out.new))) }
    ensures unchanged { IsUnchanged rc.old rc.new }
{
    let (blocks, mut run) = take(rc);
    let mut sink: Sink<'_, O, EachPiece> = Sink::Out(out, PhantomData);
    let outcome = render_outermost(
        &*template, alloc, &*parts, &*given, &blocks, &mut run, &mut sink,
    );
    restore(rc, blocks, run);
    match sink {
        Sink::Out(_out, _) => outcome.into_result(),
        Sink::Ahead(_ahead) => outcome.into_result(),
    }
}

/// Renders an element alone into an output.
pub fn render_element_into<O: Output, P: Registered>(
    element: &TemplateElement,
    alloc: Global,
    parts: &P,
    given: &Context,
    rc: &mut RenderContext,
    out: &mut O,
) -> Result<(), BoxedError>
    ensures renders { (occurrence : Occurrence) → RefinesSteps (over (P.parts parts.now) (data_of given.now))
        (run (render_element occurrence (element_view element.now))) O.may_give (moment_at (state_of rc.old) (text_only (O.held out.old)))
        (answer_of result) (moment_at (state_of rc.new) (text_only (O.held out.new))) }
    ensures unchanged { IsUnchanged rc.old rc.new }
{
    let (blocks, mut run) = take(rc);
    let mut sink: Sink<'_, O, TextOnly> = Sink::Out(out, PhantomData);
    let outcome = render_outermost_element(
        &*element, alloc, &*parts, &*given, &blocks, &mut run, &mut sink,
    );
    restore(rc, blocks, run);
    match sink {
        Sink::Out(_out, _) => outcome.into_result(),
        Sink::Ahead(_ahead) => outcome.into_result(),
    }
}

/// Includes what is found by the name of a tag of this view, and renders it into an output.
pub fn include_into<O: Output, P: Registered>(
    view: &Decorator,
    alloc: Global,
    parts: &P,
    given: &Context,
    rc: &mut RenderContext,
    out: &mut O,
) -> Result<(), BoxedError>
    ensures renders { (occurrence : Occurrence) → RefinesProg (over (P.parts parts.now) (data_of given.now))
        (include occurrence (tag_view view.now)) O.may_give (moment_at (state_of rc.old) (text_only (O.held out.old)))
        (answer_of result) (moment_at (state_of rc.new) (text_only (O.held out.new))) }
    ensures unchanged { IsUnchanged rc.old rc.new }
{
    let (blocks, mut run) = take(rc);
    let mut sink: Sink<'_, O, TextOnly> = Sink::Out(out, PhantomData);
    let outcome = include_outermost(
        &*view, alloc, &*parts, &*given, &blocks, &mut run, &mut sink,
    );
    restore(rc, blocks, run);
    match sink {
        Sink::Out(_out, _) => outcome.into_result(),
        Sink::Ahead(_ahead) => outcome.into_result(),
    }
}

/// Executes the decorators of a tree, in order. The name of the tree replaces the one in an error. What they look up is counted as
/// an evaluation's.
pub fn evaluate_tree<P: Registered>(
    template: &Template,
    alloc: Global,
    parts: &P,
    given: &Context,
    rc: &mut RenderContext,
) -> Result<(), BoxedError>
    ensures evals { Evals (over (P.parts parts.now) (data_of given.now)) (eval_tree (tree_view template.now))
        (renamed (tree_name (tree_view template.now))) (state_of rc.old) (answer_of result) (state_of rc.new) }
    ensures unchanged { IsUnchanged rc.old rc.new }
{
    let before = all_looked_up(rc);
    let (blocks, mut run) = take(rc);
    let answer = eval_outermost(&*template, alloc, &*parts, &*given, &blocks, &mut run);
    restore(rc, blocks, run);
    count_as_evaluation(rc, before);
    answer
}

/// Executes an element that is a decorator. Any other element does nothing. What it looks up is counted as an evaluation's.
pub fn evaluate_element<P: Registered>(
    element: &TemplateElement,
    alloc: Global,
    parts: &P,
    given: &Context,
    rc: &mut RenderContext,
) -> Result<(), BoxedError>
    ensures does { (occurrence : Occurrence) → Does (over (P.parts parts.now) (data_of given.now))
        (render_element occurrence (decorator_alone (element_view element.now))) (state_of rc.old) (answer_of result) (state_of rc.new) }
    ensures unchanged { IsUnchanged rc.old rc.new }
{
    let before = all_looked_up(rc);
    let (blocks, mut run) = take(rc);
    let answer = eval_outermost_element(&*element, alloc, &*parts, &*given, &blocks, &mut run);
    restore(rc, blocks, run);
    count_as_evaluation(rc, before);
    answer
}
