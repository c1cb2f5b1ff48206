//! Evaluations outside of every inclusion, over the frames from outside.

ghost use Rattle.std.specs.Prelude.{List};
ghost use Rattle.serde_json.specs.Data.{Data};
ghost use Rattle.handlebars_template.specs.Tree.{tree_name};
ghost use Rattle.handlebars_template.specs.TreeView.{element_view, tree_view};
ghost use Rattle.handlebars_scope.specs.Contexts.{data_of};
ghost use Rattle.handlebars_scope.specs.declared.block.BlockContext.{BlockContext};
ghost use Rattle.handlebars_semantics.specs.Evaluation.{decorator_alone, eval_tree, renamed};
ghost use Rattle.handlebars_semantics.specs.Means.{render_element};
ghost use Rattle.handlebars_semantics.specs.Occurrences.{Occurrence};
ghost use Rattle.handlebars_expand.specs.Boxed.{answer_of};
ghost use Rattle.handlebars_context.specs.View.{state_over};
ghost use Rattle.handlebars_elements.specs.Silent.{Does, Evals};
ghost use Rattle.handlebars_elements.specs.View.{IsUnchanged};
ghost use Rattle.handlebars_entry.specs.Entry.{IsNoInclusion, IsOutside, over};

use crate::outside::environment_outside;
use handlebars_elements::evaluate::{eval_element, eval_tree};
use handlebars_expand::boxed::BoxedError;
use handlebars_expand::pieces::TemplateReference;
use handlebars_expand::registered::Registered;
use handlebars_layers::innermost::{Innermost, binds_any};
use handlebars_layers::layer::Layer;
use handlebars_scope::block::BlockContext;
use handlebars_scope::context::Context;
use handlebars_template::template::{Template, TemplateElement};
use handlebars_values::environment::Inclusion;
use handlebars_values::null::Null;
use handlebars_values::run::Run;
use handlebars_write::location::{IterationsAround, Placement};
use std::alloc::Global;
use std::collections::VecDeque;

/// Executes the decorators of a tree.
pub(crate) fn eval_outermost<'v, P: Registered>(
    template: &'v Template,
    alloc: Global,
    parts: &'v P,
    given: &'v Context,
    blocks: &'v VecDeque<BlockContext>,
    run: &mut Run,
) -> Result<(), BoxedError>
    ensures evals { Evals (over (P.parts parts.now) (data_of given.now)) (eval_tree (tree_view template.now))
        (renamed (tree_name (tree_view template.now))) (state_over blocks.now.items run.old) (answer_of result) (state_over blocks.now.items run.new) }
    ensures unchanged { IsUnchanged run.old run.new }
{
    let null = Null::new();
    eval_over(&*template, alloc, &*parts, &*given, &*blocks, &null, run)
}

// Executes the decorators of a tree, with a null that is borrowed. Owns the layers outside of every inclusion.
fn eval_over<'v, P: Registered>(
    template: &'v Template,
    alloc: Global,
    parts: &'v P,
    given: &'v Context,
    blocks: &'v VecDeque<BlockContext>,
    null: &'v Null,
    run: &mut Run,
) -> Result<(), BoxedError>
    ensures evals { Evals (over (P.parts parts.now) (data_of given.now)) (eval_tree (tree_view template.now))
        (renamed (tree_name (tree_view template.now))) (state_over blocks.now.items run.old) (answer_of result) (state_over blocks.now.items run.new) }
    ensures unchanged { IsUnchanged run.old run.new }
{
    let root = Layer::root();
    let iterations = IterationsAround::None;
    let frames = Layer::outside(&*blocks);
    let innermost = Innermost::outside(&*given, &frames, &root, binds_any(&*blocks));
    eval_from(
        &*template,
        alloc,
        &*parts,
        &*null,
        innermost,
        &iterations,
        run,
    )
}

// Executes the decorators of a tree, from these layers. Owns the inclusion.
fn eval_from<'v, P: Registered>(
    template: &'v Template,
    alloc: Global,
    parts: &'v P,
    null: &'v Null,
    innermost: Innermost<'v, 'v>,
    iterations: &'v IterationsAround<'v>,
    run: &mut Run,
) -> Result<(), BoxedError>
    ensures evals { (blocks : List BlockContext) (d : Data) → IsOutside blocks d innermost.entry iterations.now → Evals (over (P.parts parts.now) d) (eval_tree (tree_view template.now))
        (renamed (tree_name (tree_view template.now))) (state_over blocks run.old) (answer_of result) (state_over blocks run.new) }
    ensures unchanged { IsUnchanged run.old run.new }
{
    let inclusion = Inclusion {
        alloc,
        parts: &*parts,
        null: &*null,
        inclusions: 0,
        captured: None,
        placement: Placement {
            alloc,
            indent: None,
            template: TemplateReference::First,
        },
    };
    eval_with(&*template, &inclusion, innermost, iterations, run)
}

// Executes the decorators of a tree, with what is borrowed.
fn eval_with<'v, P: Registered>(
    template: &'v Template,
    inclusion: &'v Inclusion<'v, P>,
    innermost: Innermost<'v, 'v>,
    iterations: &'v IterationsAround<'v>,
    run: &mut Run,
) -> Result<(), BoxedError>
    ensures evals { (blocks : List BlockContext) (registered : P) (d : Data) → IsOutside blocks d innermost.entry iterations.now → IsNoInclusion registered inclusion.now
        → Evals (over (P.parts registered) d) (eval_tree (tree_view template.now))
        (renamed (tree_name (tree_view template.now))) (state_over blocks run.old) (answer_of result) (state_over blocks run.new) }
    ensures unchanged { IsUnchanged run.old run.new }
{
    let environment = environment_outside(&*inclusion, innermost, iterations);
    eval_tree(&*template, &environment, run)
}

/// Executes an element that is a decorator.
pub(crate) fn eval_outermost_element<'v, P: Registered>(
    element: &'v TemplateElement,
    alloc: Global,
    parts: &'v P,
    given: &'v Context,
    blocks: &'v VecDeque<BlockContext>,
    run: &mut Run,
) -> Result<(), BoxedError>
    ensures does { (occurrence : Occurrence) → Does (over (P.parts parts.now) (data_of given.now))
        (render_element occurrence (decorator_alone (element_view element.now))) (state_over blocks.now.items run.old) (answer_of result)
        (state_over blocks.now.items run.new) }
    ensures unchanged { IsUnchanged run.old run.new }
{
    let null = Null::new();
    eval_element_over(&*element, alloc, &*parts, &*given, &*blocks, &null, run)
}

// Executes an element that is a decorator, with a null that is borrowed. Owns the layers outside of every inclusion.
fn eval_element_over<'v, P: Registered>(
    element: &'v TemplateElement,
    alloc: Global,
    parts: &'v P,
    given: &'v Context,
    blocks: &'v VecDeque<BlockContext>,
    null: &'v Null,
    run: &mut Run,
) -> Result<(), BoxedError>
    ensures does { (occurrence : Occurrence) → Does (over (P.parts parts.now) (data_of given.now))
        (render_element occurrence (decorator_alone (element_view element.now))) (state_over blocks.now.items run.old) (answer_of result)
        (state_over blocks.now.items run.new) }
    ensures unchanged { IsUnchanged run.old run.new }
{
    let root = Layer::root();
    let iterations = IterationsAround::None;
    let frames = Layer::outside(&*blocks);
    let innermost = Innermost::outside(&*given, &frames, &root, binds_any(&*blocks));
    eval_element_from(
        &*element,
        alloc,
        &*parts,
        &*null,
        innermost,
        &iterations,
        run,
    )
}

// Executes an element that is a decorator, from these layers. Owns the inclusion.
fn eval_element_from<'v, P: Registered>(
    element: &'v TemplateElement,
    alloc: Global,
    parts: &'v P,
    null: &'v Null,
    innermost: Innermost<'v, 'v>,
    iterations: &'v IterationsAround<'v>,
    run: &mut Run,
) -> Result<(), BoxedError>
    ensures does { (blocks : List BlockContext) (d : Data) → IsOutside blocks d innermost.entry iterations.now → (occurrence : Occurrence) → Does (over (P.parts parts.now) d)
        (render_element occurrence (decorator_alone (element_view element.now))) (state_over blocks run.old) (answer_of result)
        (state_over blocks run.new) }
    ensures unchanged { IsUnchanged run.old run.new }
{
    let inclusion = Inclusion {
        alloc,
        parts: &*parts,
        null: &*null,
        inclusions: 0,
        captured: None,
        placement: Placement {
            alloc,
            indent: None,
            template: TemplateReference::First,
        },
    };
    eval_element_with(&*element, &inclusion, innermost, iterations, run)
}

// Executes an element that is a decorator, with what is borrowed.
fn eval_element_with<'v, P: Registered>(
    element: &'v TemplateElement,
    inclusion: &'v Inclusion<'v, P>,
    innermost: Innermost<'v, 'v>,
    iterations: &'v IterationsAround<'v>,
    run: &mut Run,
) -> Result<(), BoxedError>
    ensures does { (blocks : List BlockContext) (registered : P) (d : Data) → IsOutside blocks d innermost.entry iterations.now → IsNoInclusion registered inclusion.now
        → (occurrence : Occurrence) → Does (over (P.parts registered) d)
        (render_element occurrence (decorator_alone (element_view element.now))) (state_over blocks run.old) (answer_of result)
        (state_over blocks run.new) }
    ensures unchanged { IsUnchanged run.old run.new }
{
    let environment = environment_outside(&*inclusion, innermost, iterations);
    eval_element(&*element, &environment, run)
}
