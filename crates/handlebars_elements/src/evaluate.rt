//! Evaluating: executing decorators alone.

ghost use Rattle.handlebars_template.specs.Tree.{tree_name};
ghost use Rattle.handlebars_template.specs.TreeView.{element_view, tree_view};
ghost use Rattle.handlebars_semantics.specs.Evaluation.{decorator_alone, eval_tree, renamed};
ghost use Rattle.handlebars_semantics.specs.Means.{render_element};
ghost use Rattle.handlebars_semantics.specs.Occurrences.{Occurrence};
ghost use Rattle.handlebars_expand.specs.Boxed.{answer_of};
ghost use Rattle.handlebars_elements.specs.Judgement.{Between};
ghost use Rattle.handlebars_elements.specs.Silent.{Does, Evals};
ghost use Rattle.handlebars_elements.specs.View.{IsUnchanged};

use crate::decorator::render_decorator;
use crate::error::positioned;
use handlebars_expand::boxed::BoxedError;
use handlebars_expand::registered::Registered;
use handlebars_template::template::{Template, TemplateElement};
use handlebars_values::environment::Environment;
use handlebars_values::run::Run;

/// Executes the decorators of a tree, in order. The name of the tree replaces the one in an error.
pub fn eval_tree<'v, P: Registered>(
    template: &'v Template,
    environment: &'v Environment<'v, 'v, P>,
    run: &mut Run,
) -> Result<(), BoxedError>
    ensures evals { Between P.parts environment.now run (λ p s next. Evals p (eval_tree (tree_view template.now))
        (renamed (tree_name (tree_view template.now))) s (answer_of result) next) }
    ensures unchanged { IsUnchanged run.old run.new }
{
    'elements: for (index, element) in template.elements.iter().enumerate() {
        if let Err(e) = eval_element(element, environment, run) {
            return Err(positioned(e, template.mapping.get(index)).renamed(&template.name));
        }
    }
    Ok(())
}

/// Executes an element that is a decorator. Any other element does nothing.
pub fn eval_element<'v, P: Registered>(
    element: &'v TemplateElement,
    environment: &'v Environment<'v, 'v, P>,
    run: &mut Run,
) -> Result<(), BoxedError>
    ensures does { (occurrence : Occurrence) → Between P.parts environment.now run
        (λ p s next. Does p (render_element occurrence (decorator_alone (element_view element.now))) s (answer_of result) next) }
    ensures unchanged { IsUnchanged run.old run.new }
{
    match element {
        TemplateElement::DecoratorExpression(tag) => render_decorator(tag, environment, run),
        TemplateElement::DecoratorBlock(tag) => render_decorator(tag, environment, run),
        TemplateElement::RawString(_) => Ok(()),
        TemplateElement::HtmlExpression(_) => Ok(()),
        TemplateElement::Expression(_) => Ok(()),
        TemplateElement::HelperBlock(_) => Ok(()),
        TemplateElement::PartialExpression(_) => Ok(()),
        TemplateElement::PartialBlock(_) => Ok(()),
        TemplateElement::Comment(_) => Ok(()),
    }
}
