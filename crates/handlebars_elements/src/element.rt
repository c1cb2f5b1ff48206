//! Rendering an element.

ghost use Rattle.handlebars_template.specs.TreeView.{call_view, element_view};
ghost use Rattle.handlebars_semantics.specs.Means.{render_element, render_expression, without_escaping};
ghost use Rattle.handlebars_semantics.specs.Occurrences.{Occurrence};
ghost use Rattle.handlebars_elements.specs.Judgement.{Refines, Stays};
ghost use Rattle.handlebars_elements.specs.View.{KnowsLocation};

use crate::alone::render_lone_element;
use crate::call::render_call;
use crate::decorator::render_decorator;
use crate::include::render_partial;
use handlebars_expand::registered::Registered;
use handlebars_template::template::{HelperTemplate, TemplateElement};
use handlebars_values::environment::Environment;
use handlebars_values::run::Run;
use handlebars_write::location::ElementLocation;
use handlebars_write::outcome::Outcome;
use handlebars_write::output_mode::OutputMode;
use handlebars_write::sink::Sink;

/// Renders one element of a tree.
#[inline(always)]
#[cycle(render)]
pub fn render_element<'v, O, T: OutputMode<O>, P: Registered>(
    element: &'v TemplateElement,
    environment: &'v Environment<'v, 'v, P>,
    fuel: u64,
    at: ElementLocation<'v>,
    run: &mut Run,
    sink: &mut Sink<'_, O, T>,
) -> Outcome
    ensures renders { (occurrence : Occurrence) → KnowsLocation T.mode.asks environment.now at.entry occurrence → Refines P.parts T.mode environment.now run sink result
        (render_element occurrence (element_view element.now)) }
    ensures stays { Stays run sink }
{
    match element {
        TemplateElement::RawString(text) => T::put_text(at, text.as_str(), &mut run.line, sink),
        TemplateElement::Expression(helper) => {
            render_expression(helper, environment, fuel, at, run, sink)
        }
        TemplateElement::HelperBlock(helper) => {
            render_call(helper, environment, fuel, at, true, run, sink)
        }
        TemplateElement::HtmlExpression(helper) => {
            render_unescaped(helper, environment, fuel, at, run, sink)
        }
        TemplateElement::PartialExpression(tag) => render_partial(
            tag,
            environment,
            fuel,
            run,
            sink,
        ),
        TemplateElement::PartialBlock(tag) => render_partial(tag, environment, fuel, run, sink),
        TemplateElement::DecoratorExpression(tag) => {
            Outcome::of(render_decorator(tag, environment, run))
        }
        TemplateElement::DecoratorBlock(tag) => {
            Outcome::of(render_decorator(tag, environment, run))
        }
        TemplateElement::Comment(_) => Outcome::Done,
    }
}

// Renders an expression: a lone one calls a helper or is a value, any other one is a call.
#[inline(always)]
#[cycle(render)]
fn render_expression<'v, O, T: OutputMode<O>, P: Registered>(
    helper: &'v HelperTemplate,
    environment: &'v Environment<'v, 'v, P>,
    fuel: u64,
    at: ElementLocation<'v>,
    run: &mut Run,
    sink: &mut Sink<'_, O, T>,
) -> Outcome
    ensures renders { (occurrence : Occurrence) → KnowsLocation T.mode.asks environment.now at.entry occurrence → Refines P.parts T.mode environment.now run sink result
        (render_expression occurrence (call_view helper.now)) }
    ensures stays { Stays run sink }
{
    if helper.is_value() {
        render_lone_element(helper, environment, fuel, at, run, sink)
    } else {
        render_call(helper, environment, fuel, at, false, run, sink)
    }
}

// Renders an expression with escaping off, and restores it.
#[inline(never)]
#[cycle(render)]
fn render_unescaped<'v, O, T: OutputMode<O>, P: Registered>(
    helper: &'v HelperTemplate,
    environment: &'v Environment<'v, 'v, P>,
    fuel: u64,
    at: ElementLocation<'v>,
    run: &mut Run,
    sink: &mut Sink<'_, O, T>,
) -> Outcome
    ensures renders { (occurrence : Occurrence) → KnowsLocation T.mode.asks environment.now at.entry occurrence → Refines P.parts T.mode environment.now run sink result
        (without_escaping (render_expression occurrence (call_view helper.now))) }
    ensures stays { Stays run sink }
{
    let escapes = run.escapes;
    run.escapes = false;
    let outcome = render_expression(helper, environment, fuel, at, run, sink);
    run.escapes = escapes;
    outcome
}
